//! The rows of one collection in ascending order of id, each with the slot that holds its object.
#![tactic(auto)]

mod list;
mod sorting;

pub use list::{Place, RowList};
pub use pivot_map::Row;
pub use sorting::{ListError, SlottedRow};
