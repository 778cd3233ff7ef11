//! The roots of a collection's trees, replaced in the profile page of a store.
#![tactic(auto)]

mod trees;

pub use trees::{PROFILE_PAGE, Trees, put_trees, set_trees};
