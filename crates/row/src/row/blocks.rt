// The cells cut into blocks of 256, each a ring with a head of its own; a short last block is a smaller ring.
#![tactic(auto, unfolding(crate::specs::Row::room))]

ghost use Rattle.std.specs.Prelude.{◌≡◌, ℕ, ◌+◌, ◌-◌, ◌*◌, ◌/◌, ◌<◌, ◌≤◌, min, slice_index_or, slice_set};
ghost use Rattle.std.specs.List.{insert};

use super::Row;
use crate::ring;

/// The number of cells in a block.
pub(super) const BLOCK: usize = 256;

impl<T: Copy> Row<'_, T> {
    ghost use Rattle.row.specs.Rings.{rings};
    ghost use Rattle.row.specs.Row.{room, order, block_end, Kept};

    /// Where block `b` starts, and where it ends.
    pub(super) fn block(&self, b: usize) -> (usize, usize)
        requires { b * 256 < room self.now }
        ensures start { result.0 ≡ b * 256 }
        ensures end { result.1 ≡ block_end self.now b }
    {
        let start = b * BLOCK;
        (start, self.cells.len().min(start + BLOCK))
    }

    /// The cell in which the item at place `i` stands.
    pub(super) fn cell_of(&self, i: usize) -> usize
        requires { i < room self.now }
        ensures within { result < room self.now }
        ensures read { (d : T) → slice_index_or (order self.now) i d ≡ slice_index_or self.now.cells.now result d }
        ensures write { (x : T) → rings 256 self.now.heads (slice_set self.now.cells.now result x) ≡ slice_set (order self.now) i x }
    {
        let (start, end) = self.block(i / BLOCK);
        let size = end - start;
        let turned = self.heads[i / BLOCK] as usize + i % BLOCK;
        let at = if turned < size { turned } else { turned - size };
        start + at
    }

    /// Puts `x` before the items of block `b`, the last of which falls out: one write, and the head moves back.
    pub(super) fn rotate_in_front(&mut self, b: usize, x: T) -> T
        requires { b * 256 < room self.old }
        ensures kept { Kept self.old self.new }
        ensures items { insert (order self.old) (b * 256) x ≡ insert (order self.new) (block_end self.old b) result }
    {
        let (start, end) = self.block(b);
        let head = self.heads[b] as usize;
        let back = if head == 0 { end - start - 1 } else { head - 1 };
        self.heads[b] = back as u16;
        let at = start + back;
        let out = self.cells[at];
        self.cells[at] = x;
        out
    }

    /// Puts `x` behind the items of block `b`, the first of which falls out: one write, and the head moves on.
    pub(super) fn rotate_in_back(&mut self, b: usize, x: T) -> T
        requires { b * 256 < room self.old }
        ensures kept { Kept self.old self.new }
        ensures items { insert (order self.old) (block_end self.old b) x ≡ insert (order self.new) (b * 256) result }
    {
        let (start, end) = self.block(b);
        let head = self.heads[b] as usize;
        let next = if start + head + 1 < end { head + 1 } else { 0 };
        self.heads[b] = next as u16;
        let at = start + head;
        let out = self.cells[at];
        self.cells[at] = x;
        out
    }

    /// Puts `x` at place `i`; the items from there up to `stop` in its block move one place up, and the last of them falls out.
    fn shift_up(&mut self, i: usize, stop: usize, x: T) -> T
        requires room { i < room self.old }
        requires forward { i ≤ stop }
        requires within { stop ≤ block_end self.old (i / 256) }
        ensures kept { Kept self.old self.new }
        ensures items { insert (order self.old) i x ≡ insert (order self.new) stop result }
    {
        let b = i / BLOCK;
        let (start, end) = self.block(b);
        let Row { cells, heads, .. } = self;
        ring::shift_up(
            &mut cells[start..end],
            heads[b] as usize,
            i - start,
            stop - start,
            x,
        )
    }

    /// Takes out the item at place `i`; those behind it in its block, up to `stop`, move one place down, and `x` follows them.
    pub(super) fn shift_down(&mut self, i: usize, stop: usize, x: T) -> T
        requires room { i < room self.old }
        requires forward { i ≤ stop }
        requires within { stop ≤ block_end self.old (i / 256) }
        ensures kept { Kept self.old self.new }
        ensures items { insert (order self.old) stop x ≡ insert (order self.new) i result }
    {
        let b = i / BLOCK;
        let (start, end) = self.block(b);
        let Row { cells, heads, .. } = self;
        ring::shift_down(
            &mut cells[start..end],
            heads[b] as usize,
            i - start,
            stop - start,
            x,
        )
    }

    /// Puts `x` at place `i`, and lets the last item of its block out: the items on the shorter side of `i` move.
    pub(super) fn insert_within(&mut self, i: usize, x: T) -> T
        requires { i < room self.old }
        ensures kept { Kept self.old self.new }
        ensures items { insert (order self.old) i x ≡ insert (order self.new) (block_end self.old (i / 256)) result }
    {
        let (start, end) = self.block(i / BLOCK);
        if i - start < (end - start) / 2 {
            let out = self.rotate_in_front(i / BLOCK, x);
            let _ = self.shift_down(start, i + 1, x);
            out
        } else {
            self.shift_up(i, end, x)
        }
    }
}
