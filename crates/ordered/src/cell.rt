// One entry of a store.

/// One value with the key that it stands under.
#[derive(Clone, Copy, PartialEq, Eq, Debug)]
pub struct Cell<K, V> {
    pub key: K,
    pub value: V,
}
