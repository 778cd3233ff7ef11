//! Giving an object.
ghost use Rattle.std.specs.Prelude.{◌≡◌, ◌<◌, ℕ, List, None, Some, false, IsTrue, OnOk, OnErr, length, map};
ghost use Rattle.std.specs.Map.{keys_of};
ghost use Rattle.spb_edge.specs.Calls.{StaysKnown};
ghost use Rattle.page_laws.specs.Pages.{risen};
ghost use Rattle.spb_defs.specs.State.{State, object_at};
ghost use Rattle.redo_journal.specs.Pages.{page};
ghost use Rattle.page_store.specs.PageStore.{has, page_at, IsCalm};
ghost use Rattle.object_file.specs.declared.slots.TheConstants.{COLLECTIONS};
ghost use Rattle.object_file.specs.Slots.{Holds};
ghost use Rattle.object_file.specs.ObjectFile as file;
ghost use Rattle.object_file.specs.ObjectFile.{HasSlots, slot_at};
ghost use Rattle.open_store.specs.Errors.{CountsFirst, CountsChangeFault, BlamesSlot, IsUndamaged};
ghost use Rattle.open_store.specs.Store.{IsStore, IsInState, opened_store, tables_of, row_in};
ghost use Rattle.open_store.specs.Answers.{Spends, StaysIfRefused, AnswersKey, BlamesSlots, IsSound};

use crate::adding::spend;
use crate::errors::{ChangeError, First};
use crate::store::Setup;
use metric_laws::Metric;
use object_file::{ObjectFile, SlotHead, slot_page};
use page_laws::Rule;
use page_store::PageStore;
use row_list::{Place, RowList};
use spb_edge::{Bytes, Disk};

/// Gives an object, unless the store is spent or has none under the key.
pub(crate) fn get_object<D: Disk, M: Metric>(
    pages: &mut PageStore<'_, D>,
    objects: &ObjectFile,
    lists: &[RowList; 4],
    spent: &mut Option<First>,
    setup: &Setup<M>,
    head: SlotHead,
    object: &mut Bytes,
) -> Result<(), ChangeError>
    requires sound { IsStore D.is_known D.image M.admitted M.dist (opened_store pages.old objects.now lists.now setup.now spent.old) }
    requires collection { head.collection < COLLECTIONS }
    ensures sound { IsStore D.is_known D.image M.admitted M.dist (opened_store pages.new objects.now lists.now setup.now spent.new) }
    ensures spends { Spends spent.old result (opened_store pages.old objects.now lists.now setup.now spent.old) (opened_store pages.new objects.now lists.now setup.now spent.new) spent.new }
    ensures refused { StaysIfRefused result (opened_store pages.old objects.now lists.now setup.now spent.old) (opened_store pages.new objects.now lists.now setup.now spent.new) }
    ensures answers { AnswersKey (row_in (tables_of lists.now) head.collection head.id) result }
    ensures replies { (s : State) → IsInState D.is_known D.image (opened_store pages.old objects.now lists.now setup.now spent.old) s
        → AnswersKey (object_at s head.collection head.id) result }
    ensures undamaged { (s : State) → IsInState D.is_known D.image (opened_store pages.old objects.now lists.now setup.now spent.old) s → IsSound result }
    ensures blames { BlamesSlots objects.now.cap result }
    ensures gives { (s : State) → IsInState D.is_known D.image (opened_store pages.old objects.now lists.now setup.now spent.old) s
        → OnOk result (object_at s head.collection head.id ≡ Some object.new) }
    ensures admitted { OnOk result (M.admitted setup.now.metric object.new) }
    ensures step { (s : State) → IsInState D.is_known D.image (opened_store pages.old objects.now lists.now setup.now spent.old) s
        → OnOk result (IsInState D.is_known D.image (opened_store pages.new objects.now lists.now setup.now spent.new) s) }
    ensures fetches { OnOk result (pages.new.fetches ≡ risen pages.old.fetches 1) }
    ensures calm { IsCalm D.is_known D.reads D.quiet pages.old pages.new }
    ensures fault { CountsChangeFault result (D.faults pages.old.disk) (D.faults pages.new.disk) }
{
    if let Some(first) = *spent {
        return Err(ChangeError::Spent { first });
    }
    let list = &lists[head.collection as usize];
    let Place::Found(place) = list.find(head.id) else {
        return Err(ChangeError::Absent);
    };
    let slot = list.slot(place);
    match read_object(pages, objects, setup, slot, head, object) {
        Ok(()) => Ok(()),
        Err(first) => Err(spend(spent, first)),
    }
}

/// Replaces the bytes of `object` by the object in a slot, which is to be of the key and admitted.
fn read_object<D: Disk, M: Metric>(
    pages: &mut PageStore<'_, D>,
    objects: &ObjectFile,
    setup: &Setup<M>,
    slot: u32,
    head: SlotHead,
    object: &mut Bytes,
) -> Result<(), First>
    requires there { HasSlots (has pages.old) objects.now.cap }
    requires slot { slot < objects.now.cap }
    ensures gives { IsTrue (D.is_known pages.old.disk) → OnOk result (slot_at (page_at D.image pages.old) slot ≡ Holds head.collection head.id object.new) }
    ensures admitted { OnOk result (M.admitted setup.now.metric object.new) }
    ensures undamaged { IsTrue (D.is_known pages.old.disk) → (held : List ℕ)
        → slot_at (page_at D.image pages.old) slot ≡ Holds head.collection head.id held → M.admitted setup.now.metric held → IsUndamaged result }
    ensures blames { BlamesSlot (file.slot_page slot) (IsTrue (D.is_known pages.old.disk) → (held : List ℕ)
        → slot_at (page_at D.image pages.old) slot ≡ Holds head.collection head.id held → M.admitted setup.now.metric held → ⊥) result }
    ensures fetches { OnOk result (pages.new.fetches ≡ risen pages.old.fetches 1) }
    ensures free { pages.new.free ≡ pages.old.free }
    ensures open { pages.new.is_open ≡ pages.old.is_open }
    ensures put { keys_of pages.new.staged ≡ keys_of pages.old.staged }
    ensures calm { IsCalm D.is_known D.reads D.quiet pages.old pages.new }
    ensures fault { CountsFirst result (D.faults pages.old.disk) (D.faults pages.new.disk) }
{
    let held = objects.slot_get(pages, slot, object)?;
    if held != head || !setup.metric.admits(object.as_slice()) {
        return Err(First::Damaged {
            page: slot_page(slot),
            rule: Rule::Slot,
        });
    }
    Ok(())
}
