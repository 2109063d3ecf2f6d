// The calls of a store, over sorted entries.
ghost use Rattle.std.specs.Prelude.{List};
ghost use Rattle.std.specs.Borrow.{GName};
ghost use Rattle.ordered.specs.declared.cell.Cell.{Cell as Entry};
ghost use Rattle.ordered.specs.Store.{spare, state as state_in};

use super::Ordered;
use crate::cell::Cell;
use chains::{ChainStore, Refusal};
use keys::Key;

impl<'a, K: Key, V: Copy> ChainStore for Ordered<'a, K, V> {
    type Key = K;

    type Value = V;

    ghost state = { state_in };

    ghost Outside = { GName × List (Entry K V) };

    ghost outside = { spare };

    #[tactic(auto, using(row::proofs::Rooms::room_small))]
    fn clear(&mut self) {
        self.row.clear();
    }

    fn count(&self, key: K) -> usize {
        self.end(key) - self.start(key)
    }

    fn value(&self, key: K, rank: usize) -> Option<V> {
        self.find(key, rank).map(|found| found.value)
    }

    fn put(&mut self, key: K, rank: usize, value: V) -> Result<(), Refusal> {
        let place = self.place_for(key, rank).ok_or(Refusal::PastEnd)?;
        if self.row.insert(place, Cell { key, value }) {
            Ok(())
        } else {
            Err(Refusal::Full)
        }
    }

    fn set(&mut self, key: K, rank: usize, value: V) -> bool {
        let Some(found) = self.find(key, rank) else {
            return false;
        };
        self.row.set(found.place, Cell { key, value })
    }

    fn take(&mut self, key: K, rank: usize) -> bool {
        let Some(found) = self.find(key, rank) else {
            return false;
        };
        self.row.remove(found.place).is_some()
    }
}
