// The keys with values, in their order: those of the low store, then those of the high one.
use super::Split;
use chains::{ChainStore, OrderedStore};
use keys::Key;

impl<A: OrderedStore, B: OrderedStore<Key = A::Key, Value = A::Value>> OrderedStore
    for Split<A, B> {
    fn first(&self) -> Option<A::Key> {
        self.low.first().or_else(|| self.high.first())
    }

    fn last(&self) -> Option<A::Key> {
        self.high.last().or_else(|| self.low.last())
    }

    fn above(&self, key: A::Key) -> Option<A::Key> {
        if self.is_low(key) {
            self.low.above(key).or_else(|| self.high.first())
        } else {
            self.high.above(key)
        }
    }

    fn below(&self, key: A::Key) -> Option<A::Key> {
        if self.is_low(key) {
            self.low.below(key)
        } else {
            self.high.below(key).or_else(|| self.low.last())
        }
    }
}
