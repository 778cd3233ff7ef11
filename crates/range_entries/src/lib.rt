//! The verdict of a range on one entry of a curve tree.
#![tactic(auto)]

mod request;

pub use query_pass::Verdict;
pub use query_shelf::QueryError;
pub use request::RangeRequest;
