// LENGTH: how many bytes, then the first four of them.
ghost use Rattle.keys.specs.Length.{length_less, length_hash, length_key};
ghost use Rattle.std.proofs.Common.{rules};

use crate::gather::gather_eight;
use crate::key::Key;
use crate::mix::mix;
use crate::translator::Translator;

/// The key of LENGTH, ordered by its first part, then by its second.
#[derive(Clone, Copy, PartialEq, Eq, PartialOrd, Ord, Debug)]
pub struct LengthKey {
    pub length: u8,
    pub prefix: u32,
}

impl Key for LengthKey {
    ghost less = { length_less };

    ghost hash = { length_hash };

    ghost order = { Prim.search rules };

    fn is_less(&self, other: &LengthKey) -> bool {
        self < other
    }

    fn hash_number(&self) -> u64 {
        mix(u64::from(self.length) * 0x1_0000_0000 + u64::from(self.prefix))
    }
}

/// LENGTH gives the number of bytes, or 255 if there are more, and the upper 32 bits of what LETTERS
/// gathers.
#[derive(Clone, Copy)]
pub struct Length;

impl Translator for Length {
    type Key = LengthKey;

    ghost translated = { λ _ bytes. length_key bytes };

    fn transform(&self, bytes: &[u8]) -> LengthKey {
        LengthKey {
            length: bytes.len().min(255) as u8,
            prefix: (gather_eight(bytes) >> 32) as u32,
        }
    }
}
