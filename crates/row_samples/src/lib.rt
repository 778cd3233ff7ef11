//! Pivots and rows made of sample objects, for the tests of the crates above.
#![tactic(auto)]

mod samples;

pub use samples::{pair, pivots_of, rows_of};
