// The split store, and which of its two stores a key belongs to.
ghost use Rattle.split.specs.Joined.{Divided, Divided-prop};

use chains::ChainStore;
use keys::Key;

mod neighbours;
mod store;

/// A low store and a high one. Keys smaller than the boundary belong to the low store, all others to
/// the high one.
#[derive(Drop)]
pub struct Split<A: ChainStore, B: ChainStore<Key = A::Key, Value = A::Value>> {
    low: A,
    high: B,
    boundary: A::Key,
    ghost divided: { Divided A.Key.less boundary (A.state low) (B.state high) } by { Divided-prop },
}

impl<A: ChainStore, B: ChainStore<Key = A::Key, Value = A::Value>> Split<A, B> {
    ghost use Rattle.std.specs.Prelude.{◌≡◌, ℕ, ◌≤◌};
    ghost use Rattle.chains.specs.State.{emptied};
    ghost use Rattle.split.specs.Joined.{joined};
    ghost use Rattle.split.specs.Store.{state, outside};

    /// A split of two stores, which are cleared. Its sections and rooms are those of both.
    pub fn new(mut low: A, mut high: B, boundary: A::Key) -> Self
        ensures state { state result ≡ emptied (joined A.Key.less boundary (A.state low) (B.state high)) }
        ensures rooms { (n : ℕ) → (state result).room n ≤ 32768 }
        ensures outside { outside result ≡ (A.outside low, B.outside high) }
    {
        low.clear();
        high.clear();
        Split {
            low,
            high,
            boundary,
        }
    }

    /// Whether the key belongs to the low store.
    fn is_low(&self, key: A::Key) -> bool
        ensures { A.Key.less key self.now.boundary ≡ result }
    {
        key.is_less(&self.boundary)
    }
}
