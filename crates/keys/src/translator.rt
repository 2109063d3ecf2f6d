// How bytes become a translated key.
ghost use Rattle.std.specs.Prelude.{◌≡◌, ℕ, List};

use crate::key::Key;

/// Gives one translated key for any bytes, the same one each time.
pub trait Translator {
    type Key: Key;

    ghost translated: { Self → List ℕ → Self.Key };

    fn transform(&self, bytes: &[u8]) -> Self::Key
        ensures { result ≡ translated self.now bytes.now };
}
