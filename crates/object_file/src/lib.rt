//! Objects in slots of 128 bytes, four to a page.
#![tactic(auto)]

mod file;
mod shelf;
mod slots;

pub use file::{ObjectFile, SLOTS_PER_PAGE, slot_page};
pub use shelf::Shelf;
pub use slots::{
    COLLECTIONS, OBJECT_LIMIT, SLOT_SIZE, SlotContent, SlotHead, fill_slot, read_slot,
};
