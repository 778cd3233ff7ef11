//! One slot filled or cleared, in a change of its own.
ghost use Rattle.std.specs.Prelude.{◌≡◌, ◌<◌, ◌≤◌, ◌∷◌, ℕ, List, false, IsTrue, IfOk, OnOk, OnErr, length};
ghost use Rattle.std.specs.List.Sorted.{IsPermutation};
ghost use Rattle.spb_edge.specs.Calls.{StaysKnown};
ghost use Rattle.spb_edge.specs.Crash.{IsDurable, CrashesLeaveOnly};
ghost use Rattle.redo_journal.specs.Pages.{page};
ghost use Rattle.redo_journal.specs.Redo.{has_open_gate, RecoversTo};
ghost use Rattle.page_store.specs.PageStore.{has};
ghost use Rattle.object_file.specs.declared.slots.TheConstants.{OBJECT_LIMIT, COLLECTIONS};
ghost use Rattle.object_file.specs.Slots.{Free, Holds};
ghost use Rattle.object_file.specs.ObjectFile.{HasSlots, is_filled};
ghost use Rattle.open_store.specs.Errors.{CountsFirst, IsUndamaged};
ghost use Rattle.open_store.specs.SlotChange.{HasSlotSet, IsFilledOrNot, IsSetOrNot, HasSamePool, IsReady};

use crate::errors::First;
use object_file::{ObjectFile, SlotHead};
use page_store::PageStore;
use spb_edge::Disk;

/// Puts an object of at most 120 bytes into a free slot, and answers which.
///
/// Over a known disk the gate is closed. After an error the pages are not to be used again. A crash leaves an image that
/// stands for the pages with the slot filled or without. It reads one page, and makes the device calls of a commit.
pub(crate) fn fill_slot<D: Disk>(
    pages: &mut PageStore<'_, D>,
    objects: &mut ObjectFile,
    head: SlotHead,
    object: &[u8],
) -> Result<u32, First>
    requires there { HasSlots (has pages.old) objects.old.cap }
    requires ready { IsReady pages.old }
    requires closed { IsTrue (D.is_known pages.old.disk) → has_open_gate (D.image pages.old.disk) ≡ false }
    requires free { 0 < length objects.old.free }
    requires collection { head.collection < COLLECTIONS }
    requires short { length object.now ≤ OBJECT_LIMIT }
    ensures any_moment { IsTrue (D.is_known pages.old.disk) → IsTrue (D.knows_crashes pages.old.disk)
        → IsDurable (D.image pages.old.disk) (D.crash_states pages.old.disk) → (marks : List ℕ)
        → RecoversTo pages.old.total (D.image pages.old.disk) marks (page (D.image pages.old.disk))
        → CrashesLeaveOnly D.moment D.crash_states_since pages.old.disk pages.new.disk
        (IsFilledOrNot pages.old.total objects.old.free (Holds head.collection head.id object.now) marks (page (D.image pages.old.disk))) }
    ensures sets { IsTrue (D.is_known pages.old.disk) → (marks : List ℕ)
        → RecoversTo pages.old.total (D.image pages.old.disk) marks (page (D.image pages.old.disk))
        → IfOk result (λ slot. HasSlotSet pages.old.total slot (Holds head.collection head.id object.now) marks (page (D.image pages.old.disk)) (D.image pages.new.disk)) }
    ensures closed { IsTrue (D.is_known pages.old.disk) → OnOk result (has_open_gate (D.image pages.new.disk) ≡ false) }
    ensures kept { IsTrue (D.is_known pages.old.disk) → IsTrue (D.knows_crashes pages.old.disk)
        → IsDurable (D.image pages.old.disk) (D.crash_states pages.old.disk)
        → OnOk result (IsDurable (D.image pages.new.disk) (D.crash_states pages.new.disk)) }
    ensures taken { IfOk result (λ slot. (slot < objects.old.cap) × IsPermutation objects.old.free (slot ∷ objects.new.free)) }
    ensures cap { objects.new.cap ≡ objects.old.cap }
    ensures pool { HasSamePool pages.old pages.new }
    ensures ready { OnOk result (IsReady pages.new) }
    ensures told { StaysKnown D.is_known D.knows_crashes pages.old.disk pages.new.disk }
    ensures undamaged { IsUndamaged result }
    ensures fault { CountsFirst result (D.faults pages.old.disk) (D.faults pages.new.disk) }
{
    pages.begin();
    let slot = objects.slot_put(pages, head, object)?;
    pages.commit()?;
    Ok(slot)
}

/// Frees a filled slot.
///
/// Over a known disk the gate is closed. After an error the pages are not to be used again. A crash leaves an image that
/// stands for the pages with the slot freed or without. It reads one page, and makes the device calls of a commit.
pub(crate) fn clear_slot<D: Disk>(
    pages: &mut PageStore<'_, D>,
    objects: &mut ObjectFile,
    slot: u32,
) -> Result<(), First>
    requires there { HasSlots (has pages.old) objects.old.cap }
    requires ready { IsReady pages.old }
    requires closed { IsTrue (D.is_known pages.old.disk) → has_open_gate (D.image pages.old.disk) ≡ false }
    requires filled { IsTrue (is_filled objects.old slot) }
    ensures any_moment { IsTrue (D.is_known pages.old.disk) → IsTrue (D.knows_crashes pages.old.disk)
        → IsDurable (D.image pages.old.disk) (D.crash_states pages.old.disk) → (marks : List ℕ)
        → RecoversTo pages.old.total (D.image pages.old.disk) marks (page (D.image pages.old.disk))
        → CrashesLeaveOnly D.moment D.crash_states_since pages.old.disk pages.new.disk
        (IsSetOrNot pages.old.total slot Free marks (page (D.image pages.old.disk))) }
    ensures sets { IsTrue (D.is_known pages.old.disk) → (marks : List ℕ)
        → RecoversTo pages.old.total (D.image pages.old.disk) marks (page (D.image pages.old.disk))
        → OnOk result (HasSlotSet pages.old.total slot Free marks (page (D.image pages.old.disk)) (D.image pages.new.disk)) }
    ensures closed { IsTrue (D.is_known pages.old.disk) → OnOk result (has_open_gate (D.image pages.new.disk) ≡ false) }
    ensures kept { IsTrue (D.is_known pages.old.disk) → IsTrue (D.knows_crashes pages.old.disk)
        → IsDurable (D.image pages.old.disk) (D.crash_states pages.old.disk)
        → OnOk result (IsDurable (D.image pages.new.disk) (D.crash_states pages.new.disk)) }
    ensures freed { OnOk result (IsPermutation objects.new.free (slot ∷ objects.old.free)) }
    ensures cap { objects.new.cap ≡ objects.old.cap }
    ensures pool { HasSamePool pages.old pages.new }
    ensures ready { OnOk result (IsReady pages.new) }
    ensures told { StaysKnown D.is_known D.knows_crashes pages.old.disk pages.new.disk }
    ensures undamaged { IsUndamaged result }
    ensures fault { CountsFirst result (D.faults pages.old.disk) (D.faults pages.new.disk) }
{
    pages.begin();
    objects.slot_clear(pages, slot)?;
    Ok(pages.commit()?)
}
