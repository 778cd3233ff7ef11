//! An entry inserted at the root.
ghost use Rattle.std.specs.Prelude.{◌≡◌, ◌+◌, ◌≤◌, ◌<◌, [], ◌∷◌, IsTrue, IsSome, IfOk, MatchResult, None, length};
ghost use Rattle.page_laws.specs.Calls.{PagesChange};
ghost use Rattle.page_laws.specs.Errors.{CountsTreeFault, IsNotDamaged};
ghost use Rattle.page_laws.specs.Pages.{is_live, AreFree};
ghost use Rattle.page_laws.specs.declared.errors.TreeError.TheVariants as tree;
ghost use Rattle.page_laws.specs.declared.rule.Rule.TheVariants as rule;
ghost use Rattle.page_laws.specs.declared.pages.TheConstants.{CHANGE_LIMIT};
ghost use Rattle.bptree_node.specs.Nodes.{Leaf};
ghost use Rattle.bptree_node.specs.declared.layout.TheConstants.{HEIGHT_LIMIT};
ghost use Rattle.bptree_node.specs.declared.rows.Entry.{Entry};
ghost use Rattle.bptree_node.specs.Summaries.{HasCorners};
ghost use Rattle.bptree_node.specs.Trees.{IsTree, list_at, pages_at, slot_of};
ghost use Rattle.bptree_edit.specs.Changes.{IsWith, HaveBoxes, StaysOutside, AreFreeAfter};
ghost use Rattle.bptree_insert.specs.Growth.{TakesAtMost, NamesInsertRule};
ghost use Rattle.bptree_edit.specs.Steps.{PagesGrow};
ghost use Rattle.bptree_insert.specs.Steps.{IsJoined, IsRaised};

use crate::below::insert_below;
use crate::grown::{Boxed, Grown};
use crate::inner::join_parts;
use bptree_edit::{Part, damaged, put_leaf};
use bptree_node::{Boxes, Entry, HEIGHT_LIMIT, Summary};
use page_laws::{Pages, Root, Rule, TreeError};

/// How many entries a tree has at most.
pub const ENTRY_LIMIT: usize = 65536;

/// Inserts an entry whose key and id the tree doesn't have, in the open change, in which at most 60
/// pages were put before. It reads one page of each level, puts at most 12 pages, and takes at most
/// six of the free ones, of which there are six at least. It gives the new root.
///
/// After Ok the pages hold a tree of the old entries with the new one at its place, with exact boxes.
/// After an error the change is abandoned: what the pages hold isn't said. Damaged never comes over
/// pages that tell what they hold. Over others it comes for a page that isn't a node of its level
/// (`node`), a child that isn't live (`page`, at its parent, or page 1 for the root), an entry whose
/// key is none of the tree (`key`), a branch whose corners are those of no box (`box`), and a root at
/// the greatest height that would be split (`match`).
pub fn insert<P: Pages, S: Summary, F: Boxes<S>>(
    pages: &mut P,
    root: Root,
    e: Entry,
    boxes: &F,
) -> Result<Root, TreeError>
    requires height { root.height ≤ HEIGHT_LIMIT }
    requires open { IsTrue (P.is_open pages.old) }
    requires put { length (P.put_pages pages.old) ≤ 60 }
    requires free { 6 ≤ length (P.free pages.old) }
    requires key { IsSome (F.entry_box boxes.now e) }
    requires tree { IsTrue (P.is_known pages.old)
        → IsTree (HasCorners S.joined (F.entry_box boxes.now) (F.keys_of boxes.now)) (P.page_at pages.old) (is_live (P.in_pool pages.old) (P.free pages.old)) root }
    requires boxes { IsTrue (P.is_known pages.old) → HaveBoxes (F.entry_box boxes.now) (list_at (P.page_at pages.old) root) }
    requires absent { IsTrue (P.is_known pages.old) → slot_of e.key e.id (list_at (P.page_at pages.old) root) ≡ None }
    requires small { IsTrue (P.is_known pages.old) → length (list_at (P.page_at pages.old) root) < ENTRY_LIMIT }
    ensures list { IsTrue (P.is_known pages.old) → IfOk result (λ new. IsWith e (list_at (P.page_at pages.old) root) (list_at (P.page_at pages.new) new)) }
    ensures tree { IsTrue (P.is_known pages.old)
        → IfOk result (IsTree (HasCorners S.joined (F.entry_box boxes.now) (F.keys_of boxes.now)) (P.page_at pages.new) (is_live (P.in_pool pages.new) (P.free pages.new))) }
    ensures outside { IsTrue (P.is_known pages.old)
        → IfOk result (λ new. StaysOutside (pages_at (P.page_at pages.old) root) (pages_at (P.page_at pages.new) new) (P.page_at pages.old) (P.page_at pages.new)) }
    ensures free { IsTrue (P.is_known pages.old)
        → IfOk result (λ new. AreFreeAfter (pages_at (P.page_at pages.old) root) (pages_at (P.page_at pages.new) new) (P.free pages.old) (P.free pages.new)) }
    ensures height { IfOk result (λ new. new.height ≤ HEIGHT_LIMIT) }
    ensures takes { TakesAtMost 6 (P.free pages.old) (P.free pages.new) }
    ensures puts { length (P.put_pages pages.new) ≤ length (P.put_pages pages.old) + 12 }
    ensures change { PagesChange P.is_known P.has P.in_pool P.is_open P.calm pages.old pages.new }
    ensures sound { IsTrue (P.is_known pages.old) → IsNotDamaged result }
    ensures names { NamesInsertRule root result }
    ensures fault { CountsTreeFault result (P.faults pages.old) (P.faults pages.new) }
{
    if root.height == 0 {
        return Ok(plant(pages, e));
    }
    if !pages.is_live(root.page) {
        return Err(damaged(1, Rule::Page));
    }
    let Some(summary) = boxes.of_entry(&e) else {
        unreachable!()
    };
    let e = Boxed { entry: e, summary };
    match insert_below(pages, root.page, root.height - 1, &e, boxes)? {
        Grown::Same => Ok(root),
        Grown::Whole => Ok(root),
        Grown::Split(left, right) => raise(pages, root, &left, &right, boxes),
    }
}

/// Takes a page, and makes it the root of a tree of one entry.
fn plant<P: Pages>(pages: &mut P, e: Entry) -> Root
    requires open { IsTrue (P.is_open pages.old) }
    requires free { 1 ≤ length (P.free pages.old) }
    requires put { length (P.put_pages pages.old) < CHANGE_LIMIT }
    ensures height { result.height ≡ 1 }
    ensures written { IsJoined result.page (Leaf (e ∷ [])) (P.page_at pages.old) (P.page_at pages.new) (P.free pages.old) (P.free pages.new) }
    ensures pages { PagesGrow P.is_known P.has P.in_pool P.free P.is_open P.put_pages P.calm 1 1 pages.old pages.new }
    ensures own { AreFree (P.in_pool pages.old) (P.free pages.old) }
    ensures faults { P.faults pages.new ≡ P.faults pages.old }
{
    let page = pages.take_page();
    put_leaf(pages, page, &[e]);
    Root { page, height: 1 }
}

/// Takes a page, and makes it the root above the two nodes that the root was split into. At the
/// greatest height it takes none.
fn raise<P: Pages, S: Summary, F: Boxes<S>>(
    pages: &mut P,
    root: Root,
    left: &Part<S>,
    right: &Part<S>,
    boxes: &F,
) -> Result<Root, TreeError>
    requires open { IsTrue (P.is_open pages.old) }
    requires free { 1 ≤ length (P.free pages.old) }
    requires put { length (P.put_pages pages.old) < CHANGE_LIMIT }
    requires left { F.is_made boxes.now left.now.summary }
    requires right { F.is_made boxes.now right.now.summary }
    ensures raised { MatchResult result
        (IsRaised (F.keys_of boxes.now) root left.now right.now (P.page_at pages.old) (P.page_at pages.new) (P.free pages.old) (P.free pages.new))
        (λ e. (e ≡ tree.Damaged root.page rule.Match) × (HEIGHT_LIMIT ≤ root.height)) }
    ensures pages { PagesGrow P.is_known P.has P.in_pool P.free P.is_open P.put_pages P.calm 1 1 pages.old pages.new }
    ensures faults { P.faults pages.new ≡ P.faults pages.old }
{
    if root.height >= HEIGHT_LIMIT {
        return Err(damaged(root.page, Rule::Match));
    }
    let page = join_parts(pages, left, right, boxes);
    Ok(Root {
        page,
        height: root.height + 1,
    })
}
