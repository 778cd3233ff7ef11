//! The choice of pivots from samples.
#![tactic(auto)]

mod choice;
mod objects;

pub use choice::choose;
pub use objects::{Choice, choose_objects};
