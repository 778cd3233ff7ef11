//! When slots and trees hold the objects of a store, as laws.
#![tactic(auto)]

mod laws;

pub use laws::{
    checked_trees_hold, held_slots_are_named, held_trees_are_kept, kept_trees_are_held,
    matched_trees_hold,
};
