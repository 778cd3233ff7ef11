//! The pairs of an earlier item and a later one are the pairs that a join of a collection with itself looks at.
#![tactic(auto)]

mod laws;

pub use laws::{ordered_pairs_are_considered, window_pairs_and_others_are_considered};
