//! An inner node of a B+-tree whose child has lost a row: the child is stored, joined with a
//! neighbour, or evened out with it.
#![tactic(auto)]

mod leaf;
mod neighbours;

pub use leaf::settle_leaf_child;
