// What the stores ask of a key: an order to search by, and a number to hash by.
ghost use Rattle.std.specs.Prelude.{◌≡◌, ℕ, Bool};
ghost use Rattle.keys.specs.Order.{StrictOrder};

/// A translated key. Its comparison is a total order in which two keys that compare equal are the
/// same key; its hash number depends on the key alone.
pub trait Key: Copy {
    ghost less: { Self → Self → Bool };

    ghost hash: { Self → ℕ };

    /// Whether this key is smaller than the other.
    fn is_less(&self, other: &Self) -> bool
        ensures { result ≡ less self.now other.now };

    /// A number of 64 bits by which a hashed store picks a cell.
    fn hash_number(&self) -> u64
        ensures { result ≡ hash self.now };

    ghost order: { StrictOrder less };
}
