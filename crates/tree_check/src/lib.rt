//! B+-trees on pages that may hold anything: whether they are sound, checked in one pass that gathers
//! their entries and their pages.
#![tactic(auto)]

mod branch;
mod leaf;
mod node;
mod page_set;
mod tree;

pub use page_set::PageSet;
pub use tree::check_tree;
