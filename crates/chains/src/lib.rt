//! What a store of sequences means, whatever holds it: the traits that stores implement and the
//! definitions and laws that their contracts share.
#![tactic(auto)]

mod laws;
mod refusal;
mod store;

pub use laws::contents_obey_their_laws;
pub use refusal::Refusal;
pub use store::{ChainStore, OrderedStore};
