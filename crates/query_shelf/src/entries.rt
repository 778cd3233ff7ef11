//! The cell and the object of an entry.
ghost use Rattle.std.specs.Prelude.{◌≡◌, IsTrue, OnOk, MatchResult};
ghost use Rattle.curve_laws.specs.Grid.{IsKey};
ghost use Rattle.object_file.specs.ObjectFile.{HasSlots};
ghost use Rattle.page_laws.specs.Calls.{PagesStay};
ghost use Rattle.page_laws.specs.Errors.{CountsTreeFault};
ghost use Rattle.page_laws.specs.Pages.{count_after};
ghost use Rattle.page_laws.specs.declared.errors.TreeError.TheVariants as tree;
ghost use Rattle.page_laws.specs.declared.rule.Rule.TheVariants as rule;
ghost use Rattle.query_shelf.specs.Reading.{ReadsSlot, NamesSlotOf};

use crate::QueryError;
use bptree_node::Entry;
use curve_laws::{Curve, Vect};
use metric_laws::Ruler;
use object_file::{ObjectFile, slot_page};
use page_laws::{Pages, Rule};
use spb_edge::Bytes;

/// The cell of an entry's key. Damaged comes exactly if the key is none of the curve, by the rule `key`
/// and page 1, since the entry's leaf isn't known.
pub fn cell_of<C: Curve>(curve: &C, key: u64) -> Result<Vect, QueryError>
    ensures { MatchResult result
        (λ cell. IsKey (C.axes curve.now) (C.bits curve.now) key × (cell ≡ C.cell_of curve.now key))
        (λ e. (e ≡ tree.Damaged 1 rule.Key) × (IsKey (C.axes curve.now) (C.bits curve.now) key → ⊥)) }
{
    if !curve.has_key(key) {
        return Err(damaged(1, Rule::Key));
    }
    Ok(curve.cell(key))
}

/// Replaces the bytes of `object` by the object that an entry of the collection names, which the ruler
/// admits. It reads one page.
///
/// Damaged comes exactly if the entry's slot is free, by the rule `slot` and page 1, since the entry's
/// leaf isn't known; or if it holds no object of this collection and id that the ruler admits, by the
/// rule `slot` and the slot's page.
pub fn read_object<P: Pages, R: Ruler>(
    pages: &mut P,
    objects: &ObjectFile,
    collection: u8,
    entry: &Entry,
    ruler: &R,
    object: &mut Bytes,
) -> Result<(), QueryError>
    requires there { HasSlots (P.has pages.old) objects.now.cap }
    ensures reads { IsTrue (P.is_known pages.old)
        → ReadsSlot (R.admitted (R.kind ruler.now)) objects.now (P.page_at pages.old) collection entry.now result object.new }
    ensures admitted { OnOk result (R.admitted (R.kind ruler.now) object.new) }
    ensures names { NamesSlotOf objects.now entry.now.slot result }
    ensures fetches { OnOk result (P.fetches pages.new ≡ count_after (P.fetches pages.old) 1) }
    ensures stay { PagesStay P.is_known P.has P.in_pool P.page_at P.free P.is_open P.put_pages P.calm pages.old pages.new }
    ensures fault { CountsTreeFault result (P.faults pages.old) (P.faults pages.new) }
{
    if !objects.is_filled(entry.slot) {
        return Err(damaged(1, Rule::Slot));
    }
    let head = objects.slot_get(pages, entry.slot, object)?;
    let is_own = head.collection == collection && head.id == entry.id;
    if !is_own || !ruler.admits(object.as_slice()) {
        return Err(damaged(slot_page(entry.slot), Rule::Slot));
    }
    Ok(())
}

/// That a page breaks a rule.
fn damaged(page: u32, rule: Rule) -> QueryError
    ensures { result ≡ tree.Damaged page rule }
{
    QueryError::Damaged { page, rule }
}
