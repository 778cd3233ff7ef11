//! Adding an object.
ghost use Rattle.std.specs.Prelude.{◌≡◌, nat_eq, ◌^◌, ◌<◌, ◌≤◌, ◌∷◌, ℕ, List, None, Some, false, IsTrue, IfOk, OnOk, OnErr, length, map};
ghost use Rattle.std.specs.List.{insert};
ghost use Rattle.std.specs.List.Sorted.{IsPermutation};
ghost use Rattle.spb_edge.specs.Calls.{StaysKnown};
ghost use Rattle.spb_edge.specs.Crash.{IsDurable, CrashesLeaveOnly};
ghost use Rattle.spb_defs.specs.Pivots.{cells_of};
ghost use Rattle.spb_defs.specs.State.{State, object_at, is_full};
ghost use Rattle.pivot_map.specs.Rows.{ArePivots};
ghost use Rattle.row_list.specs.Lists.{IsListed, IsPlaceFor};
ghost use Rattle.redo_journal.specs.Pages.{page};
ghost use Rattle.redo_journal.specs.Redo.{has_open_gate, RecoversTo};
ghost use Rattle.page_store.specs.PageStore.{has};
ghost use Rattle.object_file.specs.declared.slots.TheConstants.{OBJECT_LIMIT, COLLECTIONS};
ghost use Rattle.object_file.specs.Slots.{Holds};
ghost use Rattle.object_file.specs.ObjectFile.{HasSlots};
ghost use Rattle.open_store.specs.Errors.{CountsFirst, CountsChangeFault, IsUndamaged, change_error};
ghost use Rattle.open_store.specs.SlotChange.{HasSlotSet, IsFilledOrNot, HasSamePool, IsReady};
ghost use Rattle.open_store.specs.Store.{IsStore, IsInState, opened_store, tables_of, row_in, is_full_store, with_member, measured_row};
ghost use Rattle.open_store.specs.Answers.{Spends, StaysIfRefused, AnswersAdd, StandsForEither, HasSameSetup};

use crate::errors::{ChangeError, First};
use crate::slot_change::fill_slot;
use crate::store::Setup;
use metric_laws::{Counted, Metric};
use object_file::{ObjectFile, SlotHead};
use page_store::PageStore;
use pivot_map::map_object;
use row_list::{Place, Row, RowList};
use spb_edge::{Bytes, Disk, Memory};
use std::alloc::Global;

/// Adds an object, unless the store is spent, has one under the key, or is full.
pub(crate) fn add_object<D: Disk, M: Metric>(
    alloc: Global,
    pages: &mut PageStore<'_, D>,
    objects: &mut ObjectFile,
    lists: &mut [RowList; 4],
    spent: &mut Option<First>,
    setup: &Setup<M>,
    head: SlotHead,
    object: &[u8],
) -> Result<(), ChangeError>
    requires sound { IsStore D.is_known D.image M.admitted M.dist (opened_store pages.old objects.old lists.old setup.now spent.old) }
    requires collection { head.collection < COLLECTIONS }
    requires small { head.id < 2 ^ 32 }
    requires object { M.admitted setup.now.metric object.now }
    ensures sound { IsStore D.is_known D.image M.admitted M.dist (opened_store pages.new objects.new lists.new setup.now spent.new) }
    ensures spends { Spends spent.old result (opened_store pages.old objects.old lists.old setup.now spent.old) (opened_store pages.new objects.new lists.new setup.now spent.new) spent.new }
    ensures refused { StaysIfRefused result (opened_store pages.old objects.old lists.old setup.now spent.old) (opened_store pages.new objects.new lists.new setup.now spent.new) }
    ensures answers { AnswersAdd (row_in (tables_of lists.old) head.collection head.id) (is_full_store (opened_store pages.old objects.old lists.old setup.now spent.old)) result }
    ensures replies { (s : State) → IsInState D.is_known D.image (opened_store pages.old objects.old lists.old setup.now spent.old) s
        → AnswersAdd (object_at s head.collection head.id) (is_full s) result }
    ensures step { (s : State) → IsInState D.is_known D.image (opened_store pages.old objects.old lists.old setup.now spent.old) s
        → OnOk result (IsInState D.is_known D.image (opened_store pages.new objects.new lists.new setup.now spent.new) (with_member s head.collection head.id object.now)) }
    ensures any_moment { (s : State) → IsInState D.is_known D.image (opened_store pages.old objects.old lists.old setup.now spent.old) s
        → IsTrue (D.knows_crashes pages.old.disk) → IsDurable (D.image pages.old.disk) (D.crash_states pages.old.disk)
        → CrashesLeaveOnly D.moment D.crash_states_since pages.old.disk pages.new.disk (StandsForEither s (with_member s head.collection head.id object.now)) }
    ensures kept { IsTrue (D.is_known pages.old.disk) → IsTrue (D.knows_crashes pages.old.disk)
        → IsDurable (D.image pages.old.disk) (D.crash_states pages.old.disk)
        → OnOk result (IsDurable (D.image pages.new.disk) (D.crash_states pages.new.disk)) }
    ensures rows { OnErr result (tables_of lists.new ≡ tables_of lists.old) }
    ensures pool { HasSamePool pages.old pages.new }
    ensures told { StaysKnown D.is_known D.knows_crashes pages.old.disk pages.new.disk }
    ensures fault { CountsChangeFault result (D.faults pages.old.disk) (D.faults pages.new.disk) }
{
    if let Some(first) = *spent {
        return Err(ChangeError::Spent { first });
    }
    let Place::Absent(place) = lists[head.collection as usize].find(head.id) else {
        return Err(ChangeError::Exists);
    };
    if has_no_room(objects) {
        return Err(ChangeError::Full);
    }
    let list = &mut lists[head.collection as usize];
    match insert_object(alloc, pages, objects, list, place, setup, head, object) {
        Ok(_slot) => Ok(()),
        Err(first) => Err(spend(spent, first)),
    }
}

/// Whether no slot is free.
fn has_no_room(objects: &ObjectFile) -> bool
    ensures { result ≡ nat_eq (length objects.now.free) 0 }
{
    objects.free_slots() == 0
}

/// Ends a store: `first` is the error after which it is spent.
pub(crate) fn spend(spent: &mut Option<First>, first: First) -> ChangeError
    ensures spent { spent.new ≡ Some first }
    ensures error { result ≡ change_error first }
{
    *spent = Some(first);
    first.into()
}

/// Puts an object of a new key into a free slot and its row into the list, at its place. It answers the slot.
fn insert_object<D: Disk, M: Metric>(
    alloc: Global,
    pages: &mut PageStore<'_, D>,
    objects: &mut ObjectFile,
    list: &mut RowList,
    place: usize,
    setup: &Setup<M>,
    head: SlotHead,
    object: &[u8],
) -> Result<u32, First>
    requires there { HasSlots (has pages.old) objects.old.cap }
    requires ready { IsReady pages.old }
    requires closed { IsTrue (D.is_known pages.old.disk) → has_open_gate (D.image pages.old.disk) ≡ false }
    requires free { 0 < length objects.old.free }
    requires collection { head.collection < COLLECTIONS }
    requires short { length object.now ≤ OBJECT_LIMIT }
    requires pivots { ArePivots (M.admitted setup.now.metric) setup.now.pivots.items }
    requires object { M.admitted setup.now.metric object.now }
    requires place { IsPlaceFor list.old.rows head.id place }
    ensures any_moment { IsTrue (D.is_known pages.old.disk) → IsTrue (D.knows_crashes pages.old.disk)
        → IsDurable (D.image pages.old.disk) (D.crash_states pages.old.disk) → (marks : List ℕ)
        → RecoversTo pages.old.total (D.image pages.old.disk) marks (page (D.image pages.old.disk))
        → CrashesLeaveOnly D.moment D.crash_states_since pages.old.disk pages.new.disk
        (IsFilledOrNot pages.old.total objects.old.free (Holds head.collection head.id object.now) marks (page (D.image pages.old.disk))) }
    ensures sets { IsTrue (D.is_known pages.old.disk) → (marks : List ℕ)
        → RecoversTo pages.old.total (D.image pages.old.disk) marks (page (D.image pages.old.disk))
        → IfOk result (λ slot. HasSlotSet pages.old.total slot (Holds head.collection head.id object.now) marks (page (D.image pages.old.disk)) (D.image pages.new.disk)) }
    ensures closed { IsTrue (D.is_known pages.old.disk) → OnOk result (has_open_gate (D.image pages.new.disk) ≡ false) }
    ensures kept { IsTrue (D.is_known pages.old.disk) → IsTrue (D.knows_crashes pages.old.disk)
        → IsDurable (D.image pages.old.disk) (D.crash_states pages.old.disk)
        → OnOk result (IsDurable (D.image pages.new.disk) (D.crash_states pages.new.disk)) }
    ensures taken { IfOk result (λ slot. (slot < objects.old.cap) × IsPermutation objects.old.free (slot ∷ objects.new.free)) }
    ensures cap { objects.new.cap ≡ objects.old.cap }
    ensures rows { OnOk result (list.new.rows ≡ insert list.old.rows place (measured_row (M.dist setup.now.metric) setup.now.pivots.items head.id object.now)) }
    ensures slots { IfOk result (λ slot. list.new.slots ≡ insert list.old.slots place slot) }
    ensures listed { OnOk result (IsListed list.new.rows list.new.slots) }
    ensures stays { OnErr result ((list.new.rows ≡ list.old.rows) × (list.new.slots ≡ list.old.slots)) }
    ensures pool { HasSamePool pages.old pages.new }
    ensures ready { OnOk result (IsReady pages.new) }
    ensures told { StaysKnown D.is_known D.knows_crashes pages.old.disk pages.new.disk }
    ensures undamaged { IsUndamaged result }
    ensures fault { CountsFirst result (D.faults pages.old.disk) (D.faults pages.new.disk) }
{
    let row = prepare_row(alloc, list, setup, head.id, object)?;
    let slot = fill_slot(pages, objects, head, object)?;
    list.insert(place, row, slot);
    Ok(slot)
}

/// The row of an object, for which the list makes room.
fn prepare_row<M: Metric>(
    alloc: Global,
    list: &mut RowList,
    setup: &Setup<M>,
    id: u32,
    object: &[u8],
) -> Result<Row, Memory>
    requires pivots { ArePivots (M.admitted setup.now.metric) setup.now.pivots.items }
    requires object { M.admitted setup.now.metric object.now }
    ensures row { IfOk result (λ row. row ≡ measured_row (M.dist setup.now.metric) setup.now.pivots.items id object.now) }
    ensures room { OnOk result (IsTrue list.new.has_room) }
    ensures stays { (list.new.rows ≡ list.old.rows) × (list.new.slots ≡ list.old.slots) }
{
    list.reserve_one()?;
    let object = Bytes::of(alloc, object)?;
    let mut ruler = Counted::new(setup.metric);
    let vect = map_object(&mut ruler, setup.pivots.as_slice(), object.as_slice());
    Ok(Row { id, object, vect })
}
