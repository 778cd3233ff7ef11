//! An entry inserted under a node.
ghost use Rattle.std.specs.Prelude.{◌≡◌, ◌+◌, ◌*◌, ◌≤◌, IsTrue, Some, IfOk, length};
ghost use Rattle.page_laws.specs.Errors.{CountsTreeFault, IsNotDamaged};
ghost use Rattle.page_laws.specs.Pages.{is_live};
ghost use Rattle.page_laws.specs.declared.pages.TheConstants.{CHANGE_LIMIT};
ghost use Rattle.bptree_node.specs.Summaries.{HasCorners};
ghost use Rattle.bptree_insert.specs.Steps.{CanTake, AreMade, Grows};
ghost use Rattle.bptree_edit.specs.Steps.{PagesGrow, NamesTested};

use crate::grown::{Boxed, Grown};
use crate::inner::restore;
use crate::leaf::insert_in_leaf;
use crate::way::way_for;
use bptree_edit::damaged;
use bptree_node::{Boxes, Summary};
use page_laws::{PAGE_SIZE, Pages, Rule, TreeError};

/// Inserts an entry under the node of a level that page `n` is: leaves are at 0. It reads one page of
/// each level, and puts at most two and takes at most one for each. It puts none of an inner node whose
/// branches stay as they are.
pub(crate) fn insert_below<P: Pages, S: Summary, F: Boxes<S>>(
    pages: &mut P,
    n: u32,
    level: u8,
    e: &Boxed<S>,
    boxes: &F,
) -> Result<Grown<S>, TreeError>
    requires live { IsTrue (is_live (P.in_pool pages.old) (P.free pages.old) n) }
    requires open { IsTrue (P.is_open pages.old) }
    requires free { level + 1 ≤ length (P.free pages.old) }
    requires put { length (P.put_pages pages.old) + 2 * (level + 1) ≤ CHANGE_LIMIT }
    requires tree { IsTrue (P.is_known pages.old)
        → CanTake (HasCorners S.joined (F.entry_box boxes.now) (F.keys_of boxes.now)) (F.entry_box boxes.now) (P.in_pool pages.old) e.now.entry (P.page_at pages.old) (P.free pages.old) level n }
    requires summary { F.entry_box boxes.now e.now.entry ≡ Some e.now.summary }
    ensures grows { IsTrue (P.is_known pages.old)
        → Grows S.joined (F.entry_box boxes.now) (F.keys_of boxes.now) e.now.entry (P.page_at pages.old) (P.page_at pages.new) (P.free pages.old) (P.free pages.new) level n result }
    ensures made { IfOk result (AreMade (F.is_made boxes.now)) }
    ensures pages { PagesGrow P.is_known P.has P.in_pool P.free P.is_open P.put_pages P.calm (level + 1) (2 * (level + 1)) pages.old pages.new }
    ensures sound { IsTrue (P.is_known pages.old) → IsNotDamaged result }
    ensures names { NamesTested result }
    ensures fault { CountsTreeFault result (P.faults pages.old) (P.faults pages.new) }
{
    let mut page = [0; PAGE_SIZE];
    pages.get(n, &mut page)?;
    if level == 0 {
        return insert_in_leaf(pages, n, &page, e, boxes);
    }
    let way = way_for(&page, n, e.entry.key, e.entry.id)?;
    if !pages.is_live(way.branch.child) {
        return Err(damaged(n, Rule::Page));
    }
    let grown = insert_below(pages, way.branch.child, level - 1, e, boxes)?;
    restore(pages, n, &page, &way, grown, e, boxes)
}
