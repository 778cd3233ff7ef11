//! Objects of a store, by its trees.
#![tactic(auto)]

mod getting;

pub use getting::object_of;
