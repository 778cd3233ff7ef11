//! B+-trees whose entries are to name a store's slots: a tree on pages that may hold anything is checked, and
//! its entries are matched with the notes of the slots.
#![tactic(auto)]

mod boxes;
mod checking;
mod rules;

pub use boxes::MatchedBoxes;
pub use checking::check_matched;
