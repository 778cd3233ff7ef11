//! Slot pages that are read once.
ghost use Rattle.std.specs.Prelude.{◌≡◌, ℕ, ◌+◌, ◌*◌, ◌^◌, ◌<◌, List, IsTrue, IfOk, OnOk, length};
ghost use Rattle.redo_journal.specs.declared.layout.TheConstants.{FIRST_HOME};
ghost use Rattle.page_laws.specs.Calls.{PagesStay};
ghost use Rattle.page_laws.specs.Errors.{CountsFault};
ghost use Rattle.object_file.specs.declared.file.TheConstants.{SLOTS_PER_PAGE};
ghost use Rattle.object_file.specs.declared.slots.TheConstants.{COLLECTIONS};
ghost use Rattle.object_file.specs.Slots.{Holds, slot_in};
ghost use Rattle.object_file.specs.ObjectFile.{HasSlots};
ghost use Rattle.tree_state.specs.StoreCurves.{object_key};
ghost use Rattle.slot_notes.specs.Notes.{AreOfProfile, IsNoteOf, HasCollection, AreNotes, slots_on};

use crate::{SlotNote, SlotNotes};
use curve_laws::Curve;
use metric_laws::{Counted, Metric};
use object_file::{SLOTS_PER_PAGE, SlotContent, SlotHead, read_slot};
use page_laws::{PAGE_SIZE, PageError, Pages};
use pivot_map::map_object;
use redo_journal::layout::FIRST_HOME;
use spb_edge::{Bytes, Memory};
use std::alloc::Global;
use store_check::{Profile, slot_pages};

/// How the objects of a store get their curve keys.
#[derive(Clone, Copy)]
pub struct ObjectKeys<'a, M, C> {
    /// The store's pivots.
    pub pivots: &'a [Bytes],
    /// The metric of its space.
    pub metric: M,
    /// Its curve.
    pub curve: &'a C,
}

/// The notes of all slots of a store with this profile. Each page of slots is read once, in rising order,
/// and the distance of each object to each pivot is computed.
///
/// Errors come as the pages answer them, and Memory also if there is none for the notes.
pub fn read_notes<P: Pages, M: Metric, C: Curve>(
    alloc: Global,
    pages: &mut P,
    profile: &Profile,
    keys: &ObjectKeys<'_, M, C>,
) -> Result<SlotNotes, PageError>
    requires keys { AreOfProfile (M.admitted keys.now.metric) (M.dist keys.now.metric) (C.axes keys.now.curve.now) (C.bits keys.now.curve.now)
        (C.key_of keys.now.curve.now) (C.cell_of keys.now.curve.now) profile.now keys.now.pivots.now }
    requires there { HasSlots (P.has pages.old) profile.now.cap }
    ensures notes { IsTrue (P.is_known pages.old) → IfOk result (AreNotes profile.now keys.now.pivots.now (P.page_at pages.old) profile.now.cap) }
    ensures count { IfOk result (λ notes. length notes ≡ profile.now.cap) }
    ensures stay { PagesStay P.is_known P.has P.in_pool P.page_at P.free P.is_open P.put_pages P.calm pages.old pages.new }
    ensures fault { CountsFault result (P.faults pages.old) (P.faults pages.new) }
{
    let mut notes = SlotNotes::new(alloc);
    let mut page = [0; PAGE_SIZE];
    for n in 0..slot_pages(profile.cap) {
        pages.get(FIRST_HOME + n, &mut page)?;
        note_page(&mut notes, &page, n, profile, keys)?;
    }
    Ok(notes)
}

/// Adds the notes of the slots of a page of slots that are below the cap. The pages of slots are counted
/// from 0 on.
fn note_page<M: Metric, C: Curve>(
    notes: &mut SlotNotes,
    page: &[u8; PAGE_SIZE],
    n: u32,
    profile: &Profile,
    keys: &ObjectKeys<'_, M, C>,
) -> Result<(), Memory>
    requires keys { AreOfProfile (M.admitted keys.now.metric) (M.dist keys.now.metric) (C.axes keys.now.curve.now) (C.bits keys.now.curve.now)
        (C.key_of keys.now.curve.now) (C.cell_of keys.now.curve.now) profile.now keys.now.pivots.now }
    requires page { SLOTS_PER_PAGE * n < profile.now.cap }
    requires count { length notes.old ≡ slots_on profile.now.cap n }
    ensures notes { (home : ℕ → List ℕ) → home (FIRST_HOME + n) ≡ page.now → AreNotes profile.now keys.now.pivots.now home (slots_on profile.now.cap n) notes.old
        → OnOk result (AreNotes profile.now keys.now.pivots.now home (slots_on profile.now.cap (n + 1)) notes.new) }
    ensures count { OnOk result (length notes.new ≡ slots_on profile.now.cap (n + 1)) }
{
    let first = SLOTS_PER_PAGE * n;
    for slot in first..profile.cap.min(first + SLOTS_PER_PAGE) {
        notes.push(note_of(page, (slot % SLOTS_PER_PAGE) as usize, profile, keys))?;
    }
    Ok(())
}

/// The note of the slot at a place of a page, 0 to 3.
fn note_of<M: Metric, C: Curve>(
    page: &[u8; PAGE_SIZE],
    place: usize,
    profile: &Profile,
    keys: &ObjectKeys<'_, M, C>,
) -> SlotNote
    requires keys { AreOfProfile (M.admitted keys.now.metric) (M.dist keys.now.metric) (C.axes keys.now.curve.now) (C.bits keys.now.curve.now)
        (C.key_of keys.now.curve.now) (C.cell_of keys.now.curve.now) profile.now keys.now.pivots.now }
    requires place { place < 4 }
    ensures note { IsNoteOf profile.now.space (object_key profile.now keys.now.pivots.now) result (slot_in page.now place) }
    ensures collection { HasCollection result }
{
    match read_slot(page, place) {
        SlotContent::Free => SlotNote::Free,
        SlotContent::Filled(head, object) => filled_note(head, object, profile, keys),
        SlotContent::Broken => SlotNote::Broken,
    }
}

/// The note of a slot that holds these bytes.
fn filled_note<M: Metric, C: Curve>(
    head: SlotHead,
    object: &[u8],
    profile: &Profile,
    keys: &ObjectKeys<'_, M, C>,
) -> SlotNote
    requires keys { AreOfProfile (M.admitted keys.now.metric) (M.dist keys.now.metric) (C.axes keys.now.curve.now) (C.bits keys.now.curve.now)
        (C.key_of keys.now.curve.now) (C.cell_of keys.now.curve.now) profile.now keys.now.pivots.now }
    requires collection { head.collection < COLLECTIONS }
    ensures note { IsNoteOf profile.now.space (object_key profile.now keys.now.pivots.now) result (Holds head.collection head.id object.now) }
    ensures collection { HasCollection result }
{
    if !keys.metric.admits(object) {
        return SlotNote::Broken;
    }
    let cells = map_object(&mut Counted::new(keys.metric), keys.pivots, object);
    let id = head.id;
    SlotNote::Filled {
        collection: head.collection,
        id,
        key: keys.curve.key(&cells),
    }
}
