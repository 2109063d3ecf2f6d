//! The hashed store: a key's hash number picks the bucket that its entries are in, and each bucket is
//! a list that is threaded through the lent cells.
#![tactic(auto)]

mod cell;
mod hashed;
mod list;

pub use cell::{Cell, Link};
pub use hashed::Hashed;
