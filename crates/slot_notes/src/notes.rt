//! Notes of slots.
ghost use Rattle.std.specs.Prelude.{◌≡◌, [], ◌∷◌, ◌++◌, OnOk, IfSome, length};
ghost use Rattle.std.specs.List.{slice_get};
ghost use Rattle.slot_notes.specs.Notes.{HasCollection};

use spb_edge::Memory;
use std::alloc::Global;
use std::marker::Model;

/// What is kept of a slot.
#[derive(Clone, Copy, Debug, PartialEq, Eq)]
pub enum SlotNote {
    /// It holds nothing.
    Free,
    /// It holds an object of the store's space.
    Filled {
        /// The object's collection, 0 to 3.
        collection: u8,
        /// Its id.
        id: u32,
        /// The curve key of its cells.
        key: u64,
    },
    /// Its bytes are those of no slot, or what it holds is no object of the store's space.
    Broken,
}

/// The notes of a store's slots, in their order.
#[derive(Debug, Drop)]
pub struct SlotNotes {
    notes: Vec<SlotNote>,
}

impl Model for SlotNotes {
    ghost use Rattle.std.specs.Prelude.{List, All};
    ghost use Rattle.slot_notes.specs.declared.notes.SlotNote.{SlotNote};
    ghost use Rattle.slot_notes.specs.Notes.{HasCollection};

    ghost Value = { List SlotNote };

    ghost view = { λ s. s.notes.items };

    ghost invariant = { λ s. All HasCollection s.notes.items };
}

impl SlotNotes {
    /// No notes. It takes no memory.
    pub(crate) fn new(alloc: Global) -> SlotNotes
        ensures { result ≡ [] }
    {
        SlotNotes {
            notes: Vec::new(alloc),
        }
    }

    /// Adds the note of the next slot.
    pub(crate) fn push(&mut self, note: SlotNote) -> Result<(), Memory>
        requires { HasCollection note }
        ensures { OnOk result (self.new ≡ self.old ++ note ∷ []) }
    {
        self.notes.push(note)?;
        Ok(())
    }

    /// The note of a slot, if there is one. It takes constant time.
    pub fn get(&self, slot: u32) -> Option<SlotNote>
        ensures note { result ≡ slice_get self.now slot }
        ensures collection { IfSome result HasCollection }
    {
        self.notes.get(slot as usize).copied()
    }
}
