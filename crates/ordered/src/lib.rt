//! The ordered store: entries sorted by key in a row of lent cells, found by binary search.
#![tactic(auto)]

mod cell;
mod ordered;

pub use cell::Cell;
pub use ordered::Ordered;
