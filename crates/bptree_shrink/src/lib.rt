//! Nodes of B+-trees with fewer rows: an entry taken out of a leaf, and a root that gives way.
#![tactic(auto)]

mod leaf;
mod root;

pub use leaf::take_entry;
pub use root::{settle_inner, settle_leaf};
