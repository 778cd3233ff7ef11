//! An object, by its id.
ghost use Rattle.std.specs.Prelude.{◌≡◌, ◌+◌, ◌<◌, ◌≤◌, IsTrue, IfOk, OnOk};
ghost use Rattle.page_laws.specs.Calls.{PagesStay};
ghost use Rattle.page_laws.specs.Errors.{CountsTreeFault, IsNotDamaged};
ghost use Rattle.bptree_node.specs.declared.layout.TheConstants.{HEIGHT_LIMIT};
ghost use Rattle.object_file.specs.ObjectFile.{HasSlots};
ghost use Rattle.object_file.specs.declared.slots.TheConstants.{COLLECTIONS};
ghost use Rattle.spb_defs.specs.State.{State};
ghost use Rattle.store_check.specs.declared.profile.Profile.{Profile};
ghost use Rattle.tree_state.specs.StoreTrees.{id_root};
ghost use Rattle.tree_changes.specs.Stores.{HoldsStore};
ghost use Rattle.tree_changes.specs.Answers.{Admits, GivesObject, GivesAdmitted, NamesObjectRule};

use bptree_node::Entry;
use bptree_walk::find;
use metric_laws::Ruler;
use object_file::{ObjectFile, SlotHead};
use page_laws::{Pages, Root, TreeError};
use query_shelf::read_object;
use spb_edge::Bytes;

/// Replaces the bytes of `object` by the object of a collection and an id, which the ruler admits, and
/// gives its slot; None exactly if the collection has no object under the id. `root` is that of the
/// collection's id tree. It reads one page of each level at most, and that of the slot.
///
/// Damaged never comes over pages that hold a store. Over others it comes for a page of the tree that
/// isn't a node of its level (`node`) or names a child that isn't live (`page`), and for a slot that is
/// free (`slot`, page 1) or holds no such object (`slot`, the slot's page).
pub fn object_of<P: Pages, R: Ruler>(
    pages: &mut P,
    objects: &ObjectFile,
    root: Root,
    ruler: &R,
    head: SlotHead,
    object: &mut Bytes,
) -> Result<Option<u32>, TreeError>
    requires height { root.height ≤ HEIGHT_LIMIT }
    requires there { HasSlots (P.has pages.old) objects.now.cap }
    requires collection { head.collection < COLLECTIONS }
    ensures gives { IsTrue (P.is_known pages.old) → (profile : Profile) (s : State)
        → HoldsStore (P.page_at pages.old) (P.in_pool pages.old) (P.free pages.old) objects.now profile s → root ≡ id_root profile.roots head.collection
        → IfOk result (GivesObject s (P.page_at pages.old) head.collection head.id object.new) }
    ensures sound { IsTrue (P.is_known pages.old) → (profile : Profile) (s : State)
        → HoldsStore (P.page_at pages.old) (P.in_pool pages.old) (P.free pages.old) objects.now profile s → root ≡ id_root profile.roots head.collection
        → Admits (R.admitted (R.kind ruler.now)) s.space → IsNotDamaged result }
    ensures admitted { IfOk result (GivesAdmitted (R.admitted (R.kind ruler.now)) object.new) }
    ensures names { NamesObjectRule result }
    ensures levels { OnOk result (P.fetches pages.new ≤ P.fetches pages.old + root.height + 1) }
    ensures stay { PagesStay P.is_known P.has P.in_pool P.page_at P.free P.is_open P.put_pages P.calm pages.old pages.new }
    ensures fault { CountsTreeFault result (P.faults pages.old) (P.faults pages.new) }
{
    let key = u64::from(head.id);
    let Some(slot) = find(pages, root, key, head.id)? else {
        return Ok(None);
    };
    let entry = Entry {
        key,
        id: head.id,
        slot,
    };
    read_object(pages, objects, head.collection, &entry, ruler, object)?;
    Ok(Some(slot))
}
