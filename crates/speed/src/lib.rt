//! Whole workloads over the ordered store, for a program in another language to time. Each makes a store over cells of
//! its own, on the stack, and puts the given keys into it; nothing is allocated.
#![tactic(auto)]

mod calls;
mod workload;

pub use workload::{ordered_above, ordered_put, ordered_take, ordered_value};
