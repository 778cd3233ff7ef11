//! A pass over the pairs of the entries of one curve tree in Z-order, as a merge join of a collection with itself makes it.
//!
//! The entries come in order of their keys. Each is tested with those before it that still reach its key.
#![tactic(auto)]

mod laws;
mod pass;

pub use laws::window_pairs_are_tested;
pub use pass::pass_over;
pub use query_shelf::QueryError;
