//! The trees of a store's collections, checked one after another with the pages and the slots that they use.
#![tactic(auto)]

mod marking;
mod trees;

pub use trees::check_trees;
