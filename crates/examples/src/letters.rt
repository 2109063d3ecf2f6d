// LETTERS keys by number.
use keys::LettersKey;

pub(crate) fn key(number: u64) -> LettersKey {
    LettersKey { number }
}
