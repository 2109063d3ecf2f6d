// The items of a row: reads and changes.
#![tactic(auto, using(crate::proofs::Rooms::lengths), unfolding(crate::specs::Row::room))]

ghost use Rattle.std.specs.Prelude.{◌≡◌, true, false, ◌&&◌, [], length, None, nat_le, nat_lt, slice_set};
ghost use Rattle.std.specs.List.{insert, remove, slice_get};

use super::Row;
use super::blocks::BLOCK;

impl<T: Copy> Row<'_, T> {
    ghost use Rattle.row.specs.Row.{items, room, outside};

    /// The item at place `i`, if there is one.
    pub fn get(&self, i: usize) -> Option<T>
        ensures { result ≡ slice_get (items self.now) i }
    {
        if i < self.len() {
            Some(self.cells[self.cell_of(i)])
        } else {
            None
        }
    }

    /// Lets all items go.
    pub fn clear(&mut self)
        ensures empty { items self.new ≡ [] }
        ensures room { room self.new ≡ room self.old }
        ensures outside { outside self.new ≡ outside self.old }
    {
        self.len = 0;
    }

    /// Puts `x` at place `i`, and moves the items from there on one place up; false if `i` lies past the end, or no room is left.
    pub fn insert(&mut self, i: usize, x: T) -> bool
        ensures answer { result ≡ (nat_le i (length (items self.old)) && nat_lt (length (items self.old)) (room self.old)) }
        ensures effect { result ≡ true → items self.new ≡ insert (items self.old) i x }
        ensures refused { result ≡ false → self.new ≡ self.old }
        ensures room { room self.new ≡ room self.old }
        ensures outside { outside self.new ≡ outside self.old }
    {
        if self.len() < i || self.len() == self.capacity() {
            return false;
        }
        let mut carried = self.insert_within(i, x);
        for b in i / BLOCK + 1..self.len / BLOCK + 1 {
            carried = self.rotate_in_front(b, carried);
        }
        self.len += 1;
        true
    }

    /// Puts `x` in the place of the item at place `i`; false if there is none.
    pub fn set(&mut self, i: usize, x: T) -> bool
        ensures answer { result ≡ nat_lt i (length (items self.old)) }
        ensures effect { result ≡ true → items self.new ≡ slice_set (items self.old) i x }
        ensures refused { result ≡ false → self.new ≡ self.old }
        ensures room { room self.new ≡ room self.old }
        ensures outside { outside self.new ≡ outside self.old }
    {
        if self.len() <= i {
            return false;
        }
        let at = self.cell_of(i);
        self.cells[at] = x;
        true
    }

    /// Takes out the item at place `i`, if there is one, and moves those behind it one place down.
    pub fn remove(&mut self, i: usize) -> Option<T>
        ensures answer { result ≡ slice_get (items self.old) i }
        ensures effect { items self.new ≡ remove (items self.old) i }
        ensures refused { result ≡ None → self.new ≡ self.old }
        ensures room { room self.new ≡ room self.old }
        ensures outside { outside self.new ≡ outside self.old }
    {
        if self.len() <= i {
            return None;
        }
        let mut carried = self.cells[i];
        for b in (i / BLOCK + 1..(self.len - 1) / BLOCK + 1).rev() {
            carried = self.rotate_in_back(b, carried);
        }
        let (_, end) = self.block(i / BLOCK);
        let out = self.shift_down(i, self.len.min(end), carried);
        self.len -= 1;
        Some(out)
    }
}
