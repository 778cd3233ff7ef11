//! The entries of a store's trees, by what the slots hold.
#![tactic(auto)]

mod laws;

pub use laws::{ids_find_slots, lists_follow_slots, objects_are_counted};
