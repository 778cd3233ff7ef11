//! Removing an object.
ghost use Rattle.std.specs.Prelude.{◌≡◌, ◌<◌, ◌∷◌, ℕ, List, None, Some, false, IsTrue, OnOk, OnErr, length, map, slice_index};
ghost use Rattle.std.specs.List.{remove};
ghost use Rattle.std.specs.List.Sorted.{IsPermutation};
ghost use Rattle.spb_edge.specs.Calls.{StaysKnown};
ghost use Rattle.spb_edge.specs.Crash.{IsDurable, CrashesLeaveOnly};
ghost use Rattle.spb_defs.specs.State.{State, object_at};
ghost use Rattle.row_list.specs.Lists.{IsListed};
ghost use Rattle.redo_journal.specs.Pages.{page};
ghost use Rattle.redo_journal.specs.Redo.{has_open_gate, RecoversTo};
ghost use Rattle.page_store.specs.PageStore.{has};
ghost use Rattle.object_file.specs.declared.slots.TheConstants.{COLLECTIONS};
ghost use Rattle.object_file.specs.Slots.{Free};
ghost use Rattle.object_file.specs.ObjectFile.{HasSlots, is_filled};
ghost use Rattle.open_store.specs.Errors.{CountsFirst, CountsChangeFault, BlamesSlot};
ghost use Rattle.open_store.specs.SlotChange.{HasSlotSet, IsSetOrNot, HasSamePool, IsReady};
ghost use Rattle.open_store.specs.Store.{IsStore, IsInState, opened_store, tables_of, row_in, without_member};
ghost use Rattle.open_store.specs.Answers.{Spends, StaysIfRefused, AnswersKey, HasUnfilledRow, BlamesProfile, IsSound, StandsForEither};

use crate::adding::spend;
use crate::errors::{ChangeError, First};
use crate::slot_change::clear_slot;
use crate::store::Setup;
use metric_laws::Metric;
use object_file::{ObjectFile, SlotHead};
use page_laws::Rule;
use page_store::PageStore;
use row_list::{Place, RowList};
use spb_edge::Disk;

/// The page that is named if the slot of a row is among the free ones.
const PROFILE_PAGE: u32 = 1;

/// Removes an object, unless the store is spent or has none under the key.
pub(crate) fn remove_object<D: Disk, M: Metric>(
    pages: &mut PageStore<'_, D>,
    objects: &mut ObjectFile,
    lists: &mut [RowList; 4],
    spent: &mut Option<First>,
    _setup: &Setup<M>,
    head: SlotHead,
) -> Result<(), ChangeError>
    requires sound { IsStore D.is_known D.image M.admitted M.dist (opened_store pages.old objects.old lists.old _setup.now spent.old) }
    requires collection { head.collection < COLLECTIONS }
    ensures sound { IsStore D.is_known D.image M.admitted M.dist (opened_store pages.new objects.new lists.new _setup.now spent.new) }
    ensures spends { Spends spent.old result (opened_store pages.old objects.old lists.old _setup.now spent.old) (opened_store pages.new objects.new lists.new _setup.now spent.new) spent.new }
    ensures refused { StaysIfRefused result (opened_store pages.old objects.old lists.old _setup.now spent.old) (opened_store pages.new objects.new lists.new _setup.now spent.new) }
    ensures answers { AnswersKey (row_in (tables_of lists.old) head.collection head.id) result }
    ensures replies { (s : State) → IsInState D.is_known D.image (opened_store pages.old objects.old lists.old _setup.now spent.old) s
        → AnswersKey (object_at s head.collection head.id) result }
    ensures undamaged { (s : State) → IsInState D.is_known D.image (opened_store pages.old objects.old lists.old _setup.now spent.old) s → IsSound result }
    ensures blames { BlamesProfile (HasUnfilledRow objects.old (tables_of lists.old) head.collection head.id) result }
    ensures step { (s : State) → IsInState D.is_known D.image (opened_store pages.old objects.old lists.old _setup.now spent.old) s
        → OnOk result (IsInState D.is_known D.image (opened_store pages.new objects.new lists.new _setup.now spent.new) (without_member s head.collection head.id)) }
    ensures any_moment { (s : State) → IsInState D.is_known D.image (opened_store pages.old objects.old lists.old _setup.now spent.old) s
        → IsTrue (D.knows_crashes pages.old.disk) → IsDurable (D.image pages.old.disk) (D.crash_states pages.old.disk)
        → CrashesLeaveOnly D.moment D.crash_states_since pages.old.disk pages.new.disk (StandsForEither s (without_member s head.collection head.id)) }
    ensures kept { IsTrue (D.is_known pages.old.disk) → IsTrue (D.knows_crashes pages.old.disk)
        → IsDurable (D.image pages.old.disk) (D.crash_states pages.old.disk)
        → OnOk result (IsDurable (D.image pages.new.disk) (D.crash_states pages.new.disk)) }
    ensures rows { OnErr result (tables_of lists.new ≡ tables_of lists.old) }
    ensures pool { HasSamePool pages.old pages.new }
    ensures told { StaysKnown D.is_known D.knows_crashes pages.old.disk pages.new.disk }
    ensures fault { CountsChangeFault result (D.faults pages.old.disk) (D.faults pages.new.disk) }
{
    if let Some(first) = *spent {
        return Err(ChangeError::Spent { first });
    }
    let Place::Found(place) = lists[head.collection as usize].find(head.id) else {
        return Err(ChangeError::Absent);
    };
    let list = &mut lists[head.collection as usize];
    match remove_listed(pages, objects, list, place) {
        Ok(()) => Ok(()),
        Err(first) => Err(spend(spent, first)),
    }
}

/// Clears the slot of the row at a place, and removes the row from the list.
fn remove_listed<D: Disk>(
    pages: &mut PageStore<'_, D>,
    objects: &mut ObjectFile,
    list: &mut RowList,
    place: usize,
) -> Result<(), First>
    requires there { HasSlots (has pages.old) objects.old.cap }
    requires ready { IsReady pages.old }
    requires closed { IsTrue (D.is_known pages.old.disk) → has_open_gate (D.image pages.old.disk) ≡ false }
    requires place { place < length list.old.rows }
    ensures any_moment { IsTrue (D.is_known pages.old.disk) → IsTrue (D.knows_crashes pages.old.disk)
        → IsDurable (D.image pages.old.disk) (D.crash_states pages.old.disk) → (marks : List ℕ)
        → RecoversTo pages.old.total (D.image pages.old.disk) marks (page (D.image pages.old.disk))
        → CrashesLeaveOnly D.moment D.crash_states_since pages.old.disk pages.new.disk
        (IsSetOrNot pages.old.total (slice_index list.old.slots place) Free marks (page (D.image pages.old.disk))) }
    ensures sets { IsTrue (D.is_known pages.old.disk) → (marks : List ℕ)
        → RecoversTo pages.old.total (D.image pages.old.disk) marks (page (D.image pages.old.disk))
        → OnOk result (HasSlotSet pages.old.total (slice_index list.old.slots place) Free marks (page (D.image pages.old.disk)) (D.image pages.new.disk)) }
    ensures closed { IsTrue (D.is_known pages.old.disk) → OnOk result (has_open_gate (D.image pages.new.disk) ≡ false) }
    ensures kept { IsTrue (D.is_known pages.old.disk) → IsTrue (D.knows_crashes pages.old.disk)
        → IsDurable (D.image pages.old.disk) (D.crash_states pages.old.disk)
        → OnOk result (IsDurable (D.image pages.new.disk) (D.crash_states pages.new.disk)) }
    ensures freed { OnOk result (IsPermutation objects.new.free (slice_index list.old.slots place ∷ objects.old.free)) }
    ensures cap { objects.new.cap ≡ objects.old.cap }
    ensures rows { OnOk result (list.new.rows ≡ remove list.old.rows place) }
    ensures slots { OnOk result (list.new.slots ≡ remove list.old.slots place) }
    ensures listed { OnOk result (IsListed list.new.rows list.new.slots) }
    ensures stays { OnErr result ((list.new.rows ≡ list.old.rows) × (list.new.slots ≡ list.old.slots)) }
    ensures pool { HasSamePool pages.old pages.new }
    ensures ready { OnOk result (IsReady pages.new) }
    ensures told { StaysKnown D.is_known D.knows_crashes pages.old.disk pages.new.disk }
    ensures blames { BlamesSlot 1 (is_filled objects.old (slice_index list.old.slots place) ≡ false) result }
    ensures fault { CountsFirst result (D.faults pages.old.disk) (D.faults pages.new.disk) }
{
    let slot = list.slot(place);
    if !objects.is_filled(slot) {
        return Err(First::Damaged {
            page: PROFILE_PAGE,
            rule: Rule::Slot,
        });
    }
    clear_slot(pages, objects, slot)?;
    list.remove(place);
    Ok(())
}
