//! A pass over rows or pairs of rows: the verdict on two objects and a radius, by their vectors
//! and, if these leave it open, by measuring them; and what has been found so far.
#![tactic(auto)]

mod found;
mod verdict;

pub use found::Found;
pub use verdict::{Verdict, judge_by};
