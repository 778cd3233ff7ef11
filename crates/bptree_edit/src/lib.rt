//! What the edits of B+-trees on pages share: nodes read into tables and written from them, and what
//! branches are made from.
#![tactic(auto)]

mod inner;
mod leaf;
mod part;

pub use inner::{Branches, branches_of, child_for, inner_part, put_inner};
pub use leaf::{Entries, entries_of, leaf_part, put_leaf};
pub use part::{Part, branch_of, damaged, goes_before};
