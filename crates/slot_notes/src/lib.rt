//! What a check of a store's trees must know of the slots that they name: the slot pages are read once, and
//! of each slot its collection, its id and the curve key of its object are kept.
#![tactic(auto)]

mod notes;
mod reading;

pub use notes::{SlotNote, SlotNotes};
pub use reading::{ObjectKeys, read_notes};
