//! Rows of nodes that are put in and replaced where they stand: the rest of the page isn't read.
#![tactic(auto)]

mod branch;
mod entry;

pub use branch::set_branch;
pub use entry::insert_entry;
