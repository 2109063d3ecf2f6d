// LETTERS: the first eight bytes, as one number.
ghost use Rattle.keys.specs.Letters.{letters_less, letters_hash, letters};
ghost use Rattle.std.proofs.Common.{rules};

use crate::gather::gather_eight;
use crate::key::Key;
use crate::mix::mix;
use crate::translator::Translator;

/// The key of LETTERS, ordered as a number.
#[derive(Clone, Copy, PartialEq, Eq, PartialOrd, Ord, Debug)]
pub struct LettersKey {
    pub number: u64,
}

impl Key for LettersKey {
    ghost less = { letters_less };

    ghost hash = { letters_hash };

    ghost order = { Prim.search rules };

    fn is_less(&self, other: &LettersKey) -> bool {
        self < other
    }

    fn hash_number(&self) -> u64 {
        mix(self.number)
    }
}

/// LETTERS gathers the first eight bytes in 64 bits, the first byte highest; missing bytes are zero.
#[derive(Clone, Copy)]
pub struct Letters;

impl Translator for Letters {
    type Key = LettersKey;

    ghost translated = { λ _ bytes. letters bytes };

    fn transform(&self, bytes: &[u8]) -> LettersKey {
        LettersKey {
            number: gather_eight(bytes),
        }
    }
}
