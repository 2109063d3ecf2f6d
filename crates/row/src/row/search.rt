// The partition point of the items: a search by halves with no branch on an item, first among blocks and then in one.
#![tactic(auto, using(crate::proofs::Windows::halves), unfolding(crate::specs::Row::room))]

ghost use Rattle.std.specs.Prelude.{◌≡◌, ℕ, ◌+◌, ◌*◌, ◌^◌, ◌<◌, ◌≤◌, Bool, length, if◌then◌else◌, count_by, slice_index_or};
ghost use Rattle.std.specs.Fn.{ComputesKey};
ghost use Rattle.row.specs.Partition.{Partitioned, PartitionedTo, Window};

use super::Row;
use super::blocks::BLOCK;

// One block, from its head on and round its end.
#[derive(Drop)]
struct Ring<'a, T> {
    cells: &'a [T],
    head: usize,
    ghost within: { head < length cells.now },
}

impl<T: Copy> Row<'_, T> {
    ghost use Rattle.row.specs.Row.{items, room, order, block_end, turned};

    /// How many items satisfy `pred`, if those that do all stand before those that do not.
    pub fn partition_point<F: Fn(&T) -> bool>(&self, pred: F) -> usize
        requires { F.IsAlwaysCallable pred }
        ensures within { result ≤ length (items self.now) }
        ensures point { (p : T → Bool) → ComputesKey F.Fn p pred → Partitioned p (items self.now) → result ≡ count_by p (items self.now) }
    {
        if self.len == 0 {
            return 0;
        }
        let b = self.find_block(&pred);
        let start = b * BLOCK;
        let ring = self.ring(b);
        let n = ring.cells.len().min(self.len - start);
        start + ring.partition_point(n, &pred)
    }

    // Block `b`.
    fn ring(&self, b: usize) -> Ring<'_, T>
        requires { b * 256 < room self.now }
        ensures size { b * 256 + length result.cells.now ≡ block_end self.now b }
        ensures items { (i : ℕ) (d : T) → i < length result.cells.now → slice_index_or (order self.now) (b * 256 + i) d ≡ slice_index_or (turned result) i d }
    {
        let (start, end) = self.block(b);
        Ring {
            cells: &self.cells[start..end],
            head: self.heads[b] as usize,
        }
    }

    // The block in which the items that satisfy `pred` end.
    fn find_block<F: Fn(&T) -> bool>(&self, pred: &F) -> usize
        requires callable { F.IsAlwaysCallable pred.now }
        requires some { 0 < self.now.len }
        ensures within { result * 256 < self.now.len }
        ensures window { (p : T → Bool) → ComputesKey F.Fn p pred.now → PartitionedTo p (order self.now) self.now.len → Window p (order self.now) self.now.len (result * 256) ((result + 1) * 256) }
    {
        let blocks = (self.len - 1) / BLOCK + 1;
        let turns = blocks.ilog2();
        let last = blocks - power(turns);
        let mut b = if pred(&self.block_first(last)) {
            last
        } else {
            0
        };
        for j in (0..turns).rev() {
            let mid = b + power(j);
            b += power_if(pred(&self.block_first(mid)), j);
        }
        b
    }

    // The first item of a block.
    fn block_first(&self, b: usize) -> T
        requires { b * 256 < room self.now }
        ensures { (d : T) → result ≡ slice_index_or (order self.now) (b * 256) d }
    {
        self.cells[b * BLOCK + self.heads[b] as usize]
    }
}

impl<T: Copy> Ring<'_, T> {
    ghost use Rattle.row.specs.Row.{turned};

    // How many of the first `n` items satisfy `pred`.
    fn partition_point<F: Fn(&T) -> bool>(&self, n: usize, pred: &F) -> usize
        requires callable { F.IsAlwaysCallable pred.now }
        requires some { 0 < n }
        requires room { n ≤ length self.now.cells.now }
        ensures within { result ≤ n }
        ensures window { (p : T → Bool) → ComputesKey F.Fn p pred.now → PartitionedTo p (turned self.now) n → Window p (turned self.now) n result result }
    {
        let turns = n.ilog2();
        let width = power(turns);
        let mut low = if pred(&self.at(width - 1)) {
            n - width
        } else {
            0
        };
        for j in (0..turns).rev() {
            let half = power(j);
            low += power_if(pred(&self.at(low + half - 1)), j);
        }
        low + power_if(pred(&self.at(low)), 0)
    }

    // The item at place `i`.
    fn at(&self, i: usize) -> T
        requires { i < length self.now.cells.now }
        ensures { (d : T) → result ≡ slice_index_or (turned self.now) i d }
    {
        let near = self.cells.len() - self.head;
        let at = if i < near { self.head + i } else { i - near };
        self.cells[at]
    }
}

fn power(j: u32) -> usize
    requires { j < 64 }
    ensures { result ≡ 2 ^ j }
{
    1 << j
}

// A shift of the answer: an `if` or a product would be compiled to a branch.
fn power_if(yes: bool, j: u32) -> usize
    requires { j < 64 }
    ensures { result ≡ (if yes then 2 ^ j else 0) }
{
    usize::from(yes) << j
}
