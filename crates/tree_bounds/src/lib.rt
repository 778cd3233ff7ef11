//! How many pages B+-trees have by their entries, so that the pool of a store's file never runs out.
#![tactic(auto)]

mod pool;

pub use pool::{pools_have_room, trees_have_few_pages};
