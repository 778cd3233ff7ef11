//! Vectors of a few coordinates, and what a space-filling curve over them is.
//!
//! A curve numbers the cells of a grid: the vectors of a fixed number of coordinates, each below a
//! power of two. Each cell has one key, and each key one cell.
#![tactic(auto)]

mod curve;
mod grid;
mod vect;

pub use curve::{Curve, obeys_laws};
pub use grid::Grid;
pub use vect::{Vect, vectors_are_ordered};
