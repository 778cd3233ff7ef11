//! The k nearest of a collection on a shelf, through the boxes of its curve tree.
#![tactic(auto)]

mod root;
mod search;

pub use query_shelf::QueryError;
pub use search::{Nearest, search_tree};
