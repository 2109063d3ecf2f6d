//! Translated keys, their order and hash numbers, and the translators that make them from bytes.
#![tactic(auto)]

mod gather;
mod key;
mod length;
mod letters;
mod mix;
mod translator;

pub use key::Key;
pub use length::{Length, LengthKey};
pub use letters::{Letters, LettersKey};
pub use translator::Translator;
