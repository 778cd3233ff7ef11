//! Boxes of entries that match slots.
ghost use Rattle.std.specs.Prelude.{◌≡◌, ◌==◌};
ghost use Rattle.std.specs.List.{slice_get};
ghost use Rattle.entry_match.specs.Matching as words;

use bptree_node::{Boxes, Entry, Summary};
use slot_notes::{SlotNote, SlotNotes};

/// The boxes of a tree of a collection whose entries are to match their slots: an entry that doesn't has no
/// box.
#[derive(Clone, Copy)]
pub struct MatchedBoxes<'a, F> {
    /// The tree's boxes.
    pub boxes: &'a F,
    /// What the slots hold.
    pub notes: &'a SlotNotes,
    /// The collection.
    pub collection: u8,
    /// Whether the keys are those of the objects, as in a curve tree.
    pub by_key: bool,
}

impl<'a, F> MatchedBoxes<'a, F> {
    /// Whether the entry's slot holds its id in the collection.
    pub(crate) fn is_named(&self, e: &Entry) -> bool
        ensures { result ≡ words.is_named self.now.collection e.now (slice_get self.now.notes.now e.now.slot) }
    {
        match self.notes.get(e.slot) {
            Some(SlotNote::Filled { collection, id, .. }) => {
                collection == self.collection && id == e.id
            }
            Some(SlotNote::Free) => false,
            Some(SlotNote::Broken) => false,
            None => false,
        }
    }

    /// Whether its slot holds an object with its key.
    pub(crate) fn is_keyed(&self, e: &Entry) -> bool
        ensures { result ≡ words.is_keyed e.now (slice_get self.now.notes.now e.now.slot) }
    {
        match self.notes.get(e.slot) {
            Some(SlotNote::Filled { key, .. }) => key == e.key,
            Some(SlotNote::Free) => false,
            Some(SlotNote::Broken) => false,
            None => false,
        }
    }

    /// Whether the entry matches its slot.
    fn is_match(&self, e: &Entry) -> bool
        ensures { result ≡ words.is_match self.now.notes.now self.now.collection self.now.by_key e.now }
    {
        self.is_named(e) && (!self.by_key || self.is_keyed(e))
    }
}

impl<'a, S: Summary, F: Boxes<S>> Boxes<S> for MatchedBoxes<'a, F> {
    ghost use Rattle.entry_match.specs.Matching as words;
    ghost use Rattle.entry_match.specs.MatchLaws.{tested_laws};

    ghost entry_box = { λ b. words.tested_box (F.entry_box b.boxes.now) (words.is_match b.notes.now b.collection b.by_key) };

    ghost branch_box = { λ b. F.branch_box b.boxes.now };

    ghost keys_of = { λ b. F.keys_of b.boxes.now };

    ghost is_made = { λ b. F.is_made b.boxes.now };

    ghost width = { λ b. F.width b.boxes.now };

    ghost box_laws = { λ b. tested_laws S.size S.joined (F.entry_box b.boxes.now) (F.branch_box b.boxes.now) (F.keys_of b.boxes.now) (F.is_made b.boxes.now) (F.width b.boxes.now)
        (words.is_match b.notes.now b.collection b.by_key) (F.box_laws b.boxes.now) };

    fn of_entry(&self, e: &Entry) -> Option<S> {
        if !self.is_match(e) {
            return None;
        }
        self.boxes.of_entry(e)
    }

    fn of_branch(&self, low: u64, high: u64) -> Option<S> {
        self.boxes.of_branch(low, high)
    }

    fn as_keys(&self, s: &S) -> (u64, u64) {
        self.boxes.as_keys(s)
    }
}
