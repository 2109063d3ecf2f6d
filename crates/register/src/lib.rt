//! The print register: which issues of which papers printed a clue, under LENGTH keys.
#![tactic(auto)]

mod store;
mod usage;

pub use store::{RegisterStore, register_store};
pub use usage::Use;
