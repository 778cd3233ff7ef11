//! The rows of one collection, side by side, and an index from ids to their places.
#![tactic(auto)]

mod places;
mod table;

pub use pivot_map::Row;
pub use table::RowTable;
