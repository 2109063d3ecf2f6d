// The calls of a store, each passed to the store of its key.
ghost use Rattle.split.specs.Store.{state as state_of, outside as outside_of};

use super::Split;
use chains::{ChainStore, Refusal};
use keys::Key;

impl<A: ChainStore, B: ChainStore<Key = A::Key, Value = A::Value>> ChainStore for Split<A, B> {
    type Key = A::Key;

    type Value = A::Value;

    ghost state = { state_of };

    ghost Outside = { A.Outside × B.Outside };

    ghost outside = { outside_of };

    fn clear(&mut self) {
        self.low.clear();
        self.high.clear();
    }

    fn count(&self, key: A::Key) -> usize {
        if self.is_low(key) {
            self.low.count(key)
        } else {
            self.high.count(key)
        }
    }

    fn value(&self, key: A::Key, rank: usize) -> Option<A::Value> {
        if self.is_low(key) {
            self.low.value(key, rank)
        } else {
            self.high.value(key, rank)
        }
    }

    fn put(&mut self, key: A::Key, rank: usize, value: A::Value) -> Result<(), Refusal> {
        if self.is_low(key) {
            self.low.put(key, rank, value)
        } else {
            self.high.put(key, rank, value)
        }
    }

    fn set(&mut self, key: A::Key, rank: usize, value: A::Value) -> bool {
        if self.is_low(key) {
            self.low.set(key, rank, value)
        } else {
            self.high.set(key, rank, value)
        }
    }

    fn take(&mut self, key: A::Key, rank: usize) -> bool {
        if self.is_low(key) {
            self.low.take(key, rank)
        } else {
            self.high.take(key, rank)
        }
    }
}
