// The traits of stores. A contract speaks of `state`, what a store means; that a store's representation
// is in order is an invariant of its type.
ghost use Rattle.std.specs.Prelude.{◌≡◌, ℕ, ◌≤◌, false, length, is_ok};
ghost use Rattle.std.specs.List.{slice_get};
ghost use Rattle.chains.specs.Contents.{first_key, last_key, key_above, key_below};
ghost use Rattle.chains.specs.State.{StoreState, values, emptied, put_outcome, set_outcome, take_outcome};

use crate::refusal::Refusal;
use keys::Key;

/// For each key a sequence of values, whose ranks count from 0. Each key belongs to a section, and
/// each section has a room of at most 32,768 values; sections and rooms never change.
pub trait ChainStore {
    type Key: Key;

    type Value: Copy;

    ghost state: { Self → StoreState Self.Key Self.Value };

    ghost Outside: { Type 0 };

    ghost outside: { Self → Outside };

    /// Empties every sequence.
    fn clear(&mut self)
        ensures effect { state self.new ≡ emptied (state self.old) }
        ensures rooms { (n : ℕ) → (state self.new).room n ≤ 32768 }
        ensures outside { outside self.new ≡ outside self.old };

    /// The length of the key's sequence.
    fn count(&self, key: Self::Key) -> usize
        ensures { result ≡ length (values Self.Key.Key.less (state self.now) key) };

    /// The value at a rank of the key's sequence, or none.
    fn value(&self, key: Self::Key, rank: usize) -> Option<Self::Value>
        ensures { result ≡ slice_get (values Self.Key.Key.less (state self.now) key) rank };

    /// Inserts a value at a rank up to the length; later values move one rank up.
    fn put(&mut self, key: Self::Key, rank: usize, value: Self::Value) -> Result<(), Refusal>
        ensures effect { (result, state self.new) ≡ put_outcome Self.Key.Key.less (state self.old) key rank value }
        ensures refused { is_ok result ≡ false → self.new ≡ self.old }
        ensures outside { outside self.new ≡ outside self.old };

    /// Replaces the value at a rank and answers yes; past the end it does nothing and answers no.
    fn set(&mut self, key: Self::Key, rank: usize, value: Self::Value) -> bool
        ensures effect { (result, state self.new) ≡ set_outcome Self.Key.Key.less (state self.old) key rank value }
        ensures refused { result ≡ false → self.new ≡ self.old }
        ensures outside { outside self.new ≡ outside self.old };

    /// Removes the value at a rank and answers yes; past the end it does nothing and answers no.
    fn take(&mut self, key: Self::Key, rank: usize) -> bool
        ensures effect { (result, state self.new) ≡ take_outcome Self.Key.Key.less (state self.old) key rank }
        ensures refused { result ≡ false → self.new ≡ self.old }
        ensures outside { outside self.new ≡ outside self.old };
}

/// A store that also tells which keys have values, in the order of the keys.
pub trait OrderedStore: ChainStore {
    /// The least key with values, or none.
    fn first(&self) -> Option<Self::Key>
        ensures { result ≡ first_key (Self.ChainStore.state self.now).contents };

    /// The greatest key with values, or none.
    fn last(&self) -> Option<Self::Key>
        ensures { result ≡ last_key (Self.ChainStore.state self.now).contents };

    /// The least key with values that is greater than the given one, or none.
    fn above(&self, key: Self::Key) -> Option<Self::Key>
        ensures { result ≡ key_above Self.Key.Key.less (Self.ChainStore.state self.now).contents key };

    /// The greatest key with values that is smaller than the given one, or none.
    fn below(&self, key: Self::Key) -> Option<Self::Key>
        ensures { result ≡ key_below Self.Key.Key.less (Self.ChainStore.state self.now).contents key };
}
