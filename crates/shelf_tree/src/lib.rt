//! One collection of a shelf as a search for the nearest goes through it: the nodes of its curve tree, read as
//! they are opened, and the objects in its slots, read as they are measured.
#![tactic(auto)]

mod rows;
mod tree;

pub use query_shelf::QueryError;
pub use tree::CurveTree;
