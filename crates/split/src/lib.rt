//! A store made of two: the keys below a boundary in one, all others in the other.
#![tactic(auto, using(crate::proofs::Sides::sides))]

mod split;

pub use split::Split;
