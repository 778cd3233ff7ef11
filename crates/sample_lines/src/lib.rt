//! The samples from which a store's pivots are chosen, read from the lines of an input.
#![tactic(auto)]

mod laws;
mod rows;
mod samples;

pub use laws::one_answer;
pub use rows::worked_lines;
pub use samples::{SampleError, read_samples};
