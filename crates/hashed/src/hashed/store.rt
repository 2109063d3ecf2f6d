// The calls of a store, over hashed entries.
ghost use Rattle.std.specs.Prelude.{List};
ghost use Rattle.std.specs.Borrow.{GName};
ghost use Rattle.hashed.specs.declared.cell.Cell.{Cell as Record};
ghost use Rattle.hashed.specs.Store.{spare, state as state_in};

use super::{Hashed, MAX_ROOM};
use crate::list::free_all;
use chains::{ChainStore, Refusal};
use keys::Key;

impl<'a, K: Key, V: Copy> ChainStore for Hashed<'a, K, V> {
    type Key = K;

    type Value = V;

    ghost state = { state_in K.Key.less };

    ghost Outside = { GName × List (Record K V) };

    ghost outside = { spare };

    fn clear(&mut self) {
        let room = self.room();
        self.free = free_all(&mut self.cells[..room]);
    }

    /// A search for a rank past all of them passes each value of the key.
    fn count(&self, key: K) -> usize {
        self.find(key, MAX_ROOM).passed
    }

    fn value(&self, key: K, rank: usize) -> Option<V> {
        let x = self.find(key, rank).link.cell(self.room())?;
        Some(self.cells[x].value)
    }

    fn put(&mut self, key: K, rank: usize, value: V) -> Result<(), Refusal> {
        let room = self.room();
        let place = self.find(key, rank);
        if place.passed < rank {
            return Err(Refusal::PastEnd);
        }
        let Some(x) = self.free.cell(room) else {
            return Err(Refusal::Full);
        };
        self.free = place.insert(&mut self.cells[..room], x, key, value);
        Ok(())
    }

    fn set(&mut self, key: K, rank: usize, value: V) -> bool {
        let room = self.room();
        let Some(x) = self.find(key, rank).link.cell(room) else {
            return false;
        };
        let cells = &mut self.cells[..room];
        cells[x].value = value;
        true
    }

    fn take(&mut self, key: K, rank: usize) -> bool {
        let room = self.room();
        let entry = self.find(key, rank);
        let Some(x) = entry.link.cell(room) else {
            return false;
        };
        entry.remove(&mut self.cells[..room], x, self.free);
        self.free = entry.link;
        true
    }
}
