//! Ranges over a shelf, by its curve trees: exactly what a scan of all objects gives.
#![tactic(auto)]

mod pass;
mod ranging;

pub use query_shelf::QueryError;
pub use ranging::range;
pub use spb_defs::RangeAnswer;
