//! B+-trees grown: one entry inserted.
#![tactic(auto)]

mod below;
mod grown;
mod inner;
mod inserting;
mod leaf;
mod node;
mod way;

pub use inserting::{ENTRY_LIMIT, insert};
