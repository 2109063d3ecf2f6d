// The lists that are threaded through the cells in use. A link that leads past them ends a list.
ghost use Rattle.std.specs.Prelude.{◌≡◌, ℕ, ◌%◌, ◌<◌, ◌≤◌, ◌≢◌, length, Some, slice_index_or};
ghost use Rattle.keys.specs.Order.{same};
ghost use Rattle.hashed.specs.Cells.{target, next_of, first_of, entry_of, bucket_of, Found, Relinked, Emptied};
ghost use Rattle.hashed.specs.declared.cell.Cell.{Cell as Record};
ghost use Rattle.hashed.specs.Links.{Linked};
ghost use Rattle.hashed.specs.Store.{InRange};

use crate::cell::{Cell, Link};
use keys::Key;

/// A place in the list of a bucket: the cell before it, the link that leads to it, and how many values
/// of the key come before it.
#[derive(Clone, Copy)]
pub(crate) struct Place {
    pub(crate) bucket: usize,
    pub(crate) previous: Option<usize>,
    pub(crate) link: Link,
    pub(crate) passed: usize,
}

/// The bucket of a key in a store of `room` cells.
pub(crate) fn bucket_for<K: Key>(key: K, room: usize) -> usize
    requires { 0 < room }
    ensures value { result ≡ K.Key.hash key % room }
    ensures within { result < room }
{
    (key.hash_number() % room as u64) as usize
}

/// Whether two keys are the same: neither is smaller. (`==` would ask more of a key kind, and promise less.)
fn is_same<K: Key>(a: &K, b: &K) -> bool
    ensures { result ≡ same K.Key.less a.now b.now }
{
    !a.is_less(b) && !b.is_less(a)
}

/// The place of the value of `key` at `rank` in the list of a bucket, or the end of the list.
pub(crate) fn seek<K: Key, V: Copy>(
    cells: &[Cell<K, V>],
    bucket: usize,
    key: K,
    rank: usize,
) -> Place
    requires bucket { bucket < length cells.now }
    requires linked { Linked (next_of (length cells.now) cells.now) (first_of (length cells.now) cells.now bucket) (bucket_of (length cells.now) cells.now bucket) }
    ensures bucket { result.bucket ≡ bucket }
    ensures previous { (y : ℕ) → result.previous ≡ Some y → y < length cells.now }
    ensures found { Found K.Key.less cells.now (bucket_of (length cells.now) cells.now bucket) key rank result.previous (target (length cells.now) result.link.0) result.passed }
{
    let mut previous = None;
    let mut link = cells[bucket].first;
    let mut passed = 0;
    while let Some(x) = link.cell(cells.len()) {
        let cell = &cells[x];
        if is_same(&cell.key, &key) {
            if passed == rank {
                break;
            }
            passed += 1;
        }
        previous = Some(x);
        link = cell.next;
    }
    Place {
        bucket,
        previous,
        link,
        passed,
    }
}

impl Place {
    /// Puts `cell` into the place of the cell `x`, and has the link to this place lead to `to`.
    fn relink<K: Copy, V: Copy>(
        self,
        cells: &mut [Cell<K, V>],
        x: usize,
        cell: Cell<K, V>,
        to: Link,
    )
        requires cell { x < length cells.old }
        requires first { (d : Record K V) → cell.first ≡ (slice_index_or cells.old x d).first }
        requires place { InRange (length cells.old) self }
        ensures { ((y : ℕ) → self.previous ≡ Some y → y ≢ x) → Relinked (length cells.old) cells.old cells.new self.bucket self.previous x (target (length cells.old) cell.next.0) (cell.key, cell.value) (target (length cells.old) to.0) }
    {
        cells[x] = cell;
        match self.previous {
            None => cells[self.bucket].first = to,
            Some(y) => cells[y].next = to,
        }
    }

    /// Puts the free cell `x` with an entry at this place, and answers the link to the next free cell.
    pub(crate) fn insert<K: Copy, V: Copy>(
        self,
        cells: &mut [Cell<K, V>],
        x: usize,
        key: K,
        value: V,
    ) -> Link
        requires small { length cells.old ≤ 32768 }
        requires cell { x < length cells.old }
        requires place { InRange (length cells.old) self }
        ensures free { target (length cells.old) result.0 ≡ next_of (length cells.old) cells.old x }
        ensures links { ((y : ℕ) → self.previous ≡ Some y → y ≢ x) → Relinked (length cells.old) cells.old cells.new self.bucket self.previous x (target (length cells.old) self.link.0) (key, value) (Some x) }
    {
        let old = cells[x];
        let cell = Cell {
            key,
            value,
            next: self.link,
            ..old
        };
        self.relink(cells, x, cell, Link::to(x));
        old.next
    }

    /// Takes the cell `x` out of this place, at which it stands, and puts it before the free cells.
    pub(crate) fn remove<K: Copy, V: Copy>(self, cells: &mut [Cell<K, V>], x: usize, free: Link)
        requires cell { x < length cells.old }
        requires place { InRange (length cells.old) self }
        ensures { (e : K × V) → entry_of cells.old x ≡ Some e → ((y : ℕ) → self.previous ≡ Some y → y ≢ x) → Relinked (length cells.old) cells.old cells.new self.bucket self.previous x (target (length cells.old) free.0) e (next_of (length cells.old) cells.old x) }
    {
        let old = cells[x];
        self.relink(cells, x, Cell { next: free, ..old }, old.next);
    }
}

/// Empties every bucket and links all cells up as free ones; answers the link to the first of them.
pub(crate) fn free_all<K, V>(cells: &mut [Cell<K, V>]) -> Link
    requires { length cells.old ≤ 32768 }
    ensures { Emptied (length cells.old) cells.new (target (length cells.old) result.0) (length cells.old) }
{
    let mut free = Link::NONE;
    for (i, cell) in cells.iter_mut().enumerate() {
        cell.first = Link::NONE;
        cell.next = free;
        free = Link::to(i);
    }
    free
}
