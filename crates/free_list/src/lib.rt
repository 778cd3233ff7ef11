//! The free numbers of a range, with a mark for each number of the range beside their list.
#![tactic(auto)]

mod list;

pub use list::FreeList;
