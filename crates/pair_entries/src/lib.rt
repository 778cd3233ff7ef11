//! The verdict of a join on a pair of entries of curve trees.
#![tactic(auto)]

mod request;

pub use query_pass::Verdict;
pub use query_shelf::QueryError;
pub use request::{JoinRequest, PairObjects};
