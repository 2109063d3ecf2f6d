// The keys with values, in their order.
use super::Ordered;
use chains::OrderedStore;
use keys::Key;

impl<'a, K: Key, V: Copy> OrderedStore for Ordered<'a, K, V> {
    #[tactic(auto, using(crate::proofs::Neighbours::first_is))]
    fn first(&self) -> Option<K> {
        self.key_at(0)
    }

    #[tactic(auto, using(crate::proofs::Neighbours::last_is, crate::proofs::Neighbours::last_none))]
    fn last(&self) -> Option<K> {
        let place = self.row.len().checked_sub(1)?;
        self.key_at(place)
    }

    fn above(&self, key: K) -> Option<K> {
        self.key_at(self.end(key))
    }

    #[tactic(auto, using(crate::proofs::Neighbours::below_is, crate::proofs::Neighbours::below_none))]
    fn below(&self, key: K) -> Option<K> {
        let place = self.start(key).checked_sub(1)?;
        self.key_at(place)
    }
}
