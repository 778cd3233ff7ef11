//! The k nearest neighbours, answered with few distance computations: exactly what a scan of all objects gives.
#![tactic(auto)]

mod listing;
mod near;
mod rows;

pub use near::near_rows;
pub use spb_defs::NearAnswer;
