//! Ranges and joins, answered with few distance computations: exactly what a scan of all objects gives.
#![tactic(auto)]

mod join;
mod rows;

pub use join::join_rows;
pub use rows::range_rows;
pub use spb_defs::{JoinAnswer, RangeAnswer};
