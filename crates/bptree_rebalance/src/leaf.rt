//! A leaf under an inner node that has lost an entry.
ghost use Rattle.std.specs.Prelude.{◌≡◌, ◌+◌, ◌<◌, ◌≤◌, IsTrue, IsSome, IfOk, length, take, drop};
ghost use Rattle.std.specs.List.{AllByRecursion};
ghost use Rattle.page_laws.specs.Errors.{CountsTreeFault, IsNotDamaged};
ghost use Rattle.page_laws.specs.declared.pages.TheConstants.{CHANGE_LIMIT};
ghost use Rattle.bptree_node.specs.declared.layout.TheConstants.{LEAST_ENTRIES, MOST_ENTRIES, MOST_BRANCHES};
ghost use Rattle.bptree_node.specs.declared.rows.Entry.{Entry};
ghost use Rattle.bptree_node.specs.Nodes.{Leaf};
ghost use Rattle.bptree_node.specs.Summaries.{HasCorners};
ghost use Rattle.bptree_edit.specs.Parts.{IsLeafPart};
ghost use Rattle.bptree_edit.specs.Steps.{PagesGrow, NamesTested};
ghost use Rattle.bptree_mend.specs.Mending.{PagesShrink};
ghost use Rattle.bptree_rebalance.specs.Settling.{child_at, HasLostRow, HasStored, Settles};

use crate::neighbours::{joined, mend_pair, read_leaf};
use bptree_edit::{Branches, Entries, branch_of, damaged, leaf_part, put_leaf};
use bptree_node::{Boxes, Entry, LEAST_ENTRIES, Summary};
use page_laws::{Pages, Rule, TreeError};

/// Stores the entries that are left of the leaf under the branch at `at`, and renews the branches of
/// the inner node that page `n` is; the node itself isn't put. With enough entries the leaf gets
/// them. Else it is joined or evened out with the next leaf, or with the one before if it is the
/// last. It reads at most one page, puts at most two, and gives back at most one.
///
/// Damaged never comes over pages that tell what they hold. Over others it comes for a child that
/// isn't live (`page`, at page `n`), a neighbour that isn't a leaf (`node`), and an entry whose key is
/// none of the tree (`key`). After an error the change is abandoned.
pub fn settle_leaf_child<P: Pages, S: Summary, F: Boxes<S>>(
    pages: &mut P,
    n: u32,
    branches: &mut Branches,
    at: usize,
    entries: Entries,
    boxes: &F,
) -> Result<(), TreeError>
    requires open { IsTrue (P.is_open pages.old) }
    requires put { length (P.put_pages pages.old) + 2 ≤ CHANGE_LIMIT }
    requires place { at < length branches.old.items }
    requires some { 2 ≤ length branches.old.items }
    requires few { length branches.old.items ≤ MOST_BRANCHES }
    requires pool { IsTrue (P.in_pool pages.old (child_at branches.old.items at)) }
    requires entries { length entries.items ≤ MOST_ENTRIES }
    requires tree { IsTrue (P.is_known pages.old)
        → HasLostRow (HasCorners S.joined (F.entry_box boxes.now) (F.keys_of boxes.now)) (F.entry_box boxes.now) (P.in_pool pages.old) (P.page_at pages.old) (P.free pages.old) 0
        (take at branches.old.items) (child_at branches.old.items at) (Leaf entries.items) (drop (at + 1) branches.old.items) }
    ensures settles { IsTrue (P.is_known pages.old)
        → Settles (HasCorners S.joined (F.entry_box boxes.now) (F.keys_of boxes.now)) (P.page_at pages.old) (P.page_at pages.new) (P.free pages.old) (P.free pages.new) 0
        (take at branches.old.items) (child_at branches.old.items at) (Leaf entries.items) (drop (at + 1) branches.old.items) branches.new.items result }
    ensures count { (length branches.old.items ≤ length branches.new.items + 1) × (length branches.new.items ≤ length branches.old.items) }
    ensures pages { PagesShrink P.is_known P.has P.in_pool P.free P.is_open P.put_pages P.calm 1 2 pages.old pages.new }
    ensures sound { IsTrue (P.is_known pages.old) → IsNotDamaged result }
    ensures names { NamesTested result }
    ensures fault { CountsTreeFault result (P.faults pages.old) (P.faults pages.new) }
{
    if entries.is_empty() {
        return drop_child(pages, n, branches, at);
    }
    if entries.len() >= LEAST_ENTRIES {
        return store_leaf(pages, branches, at, &entries, boxes);
    }
    if at + 1 < branches.len() {
        return mend_with_next(pages, n, branches, at, entries, boxes);
    }
    mend_with_previous(pages, n, branches, at, &entries, boxes)
}

/// Gives the page of a leaf without entries back, and drops its branch. Only pages that hold no tree
/// have a leaf of one entry under an inner node.
fn drop_child<P: Pages>(
    pages: &mut P,
    n: u32,
    branches: &mut Branches,
    at: usize,
) -> Result<(), TreeError>
    requires open { IsTrue (P.is_open pages.old) }
    requires place { at < length branches.old.items }
    ensures count { (length branches.old.items ≤ length branches.new.items + 1) × (length branches.new.items ≤ length branches.old.items) }
    ensures pages { PagesShrink P.is_known P.has P.in_pool P.free P.is_open P.put_pages P.calm 1 0 pages.old pages.new }
    ensures names { NamesTested result }
    ensures fault { CountsTreeFault result (P.faults pages.old) (P.faults pages.new) }
{
    let child = branches[at].child;
    if !pages.is_live(child) {
        return Err(damaged(n, Rule::Page));
    }
    pages.give_page(child);
    branches.remove(at);
    Ok(())
}

/// Writes 1 to 30 entries to the leaf under the branch at `at`, and renews the branch.
fn store_leaf<P: Pages, S: Summary, F: Boxes<S>>(
    pages: &mut P,
    branches: &mut Branches,
    at: usize,
    entries: &[Entry],
    boxes: &F,
) -> Result<(), TreeError>
    requires open { IsTrue (P.is_open pages.old) }
    requires put { length (P.put_pages pages.old) < CHANGE_LIMIT }
    requires place { at < length branches.old.items }
    requires pool { IsTrue (P.in_pool pages.old (child_at branches.old.items at)) }
    requires some { 1 ≤ length entries.now }
    requires few { length entries.now ≤ MOST_ENTRIES }
    ensures stores { IfOk result (λ _. HasStored Leaf (IsLeafPart S.joined (F.entry_box boxes.now)) (F.keys_of boxes.now) at branches.old.items branches.new.items entries.now
        (P.page_at pages.old) (P.page_at pages.new) (P.free pages.old) (P.free pages.new)) }
    ensures count { length branches.new.items ≡ length branches.old.items }
    ensures pages { PagesGrow P.is_known P.has P.in_pool P.free P.is_open P.put_pages P.calm 0 1 pages.old pages.new }
    ensures free { P.free pages.new ≡ P.free pages.old }
    ensures sound { AllByRecursion (λ (e : Entry). IsSome (F.entry_box boxes.now e)) entries.now → IsNotDamaged result }
    ensures names { NamesTested result }
    ensures fault { CountsTreeFault result (P.faults pages.old) (P.faults pages.new) }
{
    let page = branches[at].child;
    let Some(part) = leaf_part(entries, page, boxes) else {
        return Err(damaged(page, Rule::Key));
    };
    put_leaf(pages, page, entries);
    branches[at] = branch_of(&part, boxes);
    Ok(())
}

/// Joins or evens out the leaf under the branch at `at` with the next one.
fn mend_with_next<P: Pages, S: Summary, F: Boxes<S>>(
    pages: &mut P,
    n: u32,
    branches: &mut Branches,
    at: usize,
    entries: Entries,
    boxes: &F,
) -> Result<(), TreeError>
    requires open { IsTrue (P.is_open pages.old) }
    requires put { length (P.put_pages pages.old) + 2 ≤ CHANGE_LIMIT }
    requires place { at + 1 < length branches.old.items }
    requires few { length branches.old.items ≤ MOST_BRANCHES }
    requires some { 1 ≤ length entries.items }
    requires entries { length entries.items < LEAST_ENTRIES }
    requires tree { IsTrue (P.is_known pages.old)
        → HasLostRow (HasCorners S.joined (F.entry_box boxes.now) (F.keys_of boxes.now)) (F.entry_box boxes.now) (P.in_pool pages.old) (P.page_at pages.old) (P.free pages.old) 0
        (take at branches.old.items) (child_at branches.old.items at) (Leaf entries.items) (drop (at + 1) branches.old.items) }
    ensures settles { IsTrue (P.is_known pages.old)
        → Settles (HasCorners S.joined (F.entry_box boxes.now) (F.keys_of boxes.now)) (P.page_at pages.old) (P.page_at pages.new) (P.free pages.old) (P.free pages.new) 0
        (take at branches.old.items) (child_at branches.old.items at) (Leaf entries.items) (drop (at + 1) branches.old.items) branches.new.items result }
    ensures count { (length branches.old.items ≤ length branches.new.items + 1) × (length branches.new.items ≤ length branches.old.items) }
    ensures pages { PagesShrink P.is_known P.has P.in_pool P.free P.is_open P.put_pages P.calm 1 2 pages.old pages.new }
    ensures sound { IsTrue (P.is_known pages.old) → IsNotDamaged result }
    ensures names { NamesTested result }
    ensures fault { CountsTreeFault result (P.faults pages.old) (P.faults pages.new) }
{
    let next = read_leaf(pages, n, branches[at + 1].child)?;
    let own = entries.len();
    let rows = joined(entries, &next);
    mend_pair(pages, n, branches, at, &rows, own, boxes)
}

/// Joins or evens out the leaf under the branch at `at`, which isn't the first, with the one before.
fn mend_with_previous<P: Pages, S: Summary, F: Boxes<S>>(
    pages: &mut P,
    n: u32,
    branches: &mut Branches,
    at: usize,
    entries: &[Entry],
    boxes: &F,
) -> Result<(), TreeError>
    requires open { IsTrue (P.is_open pages.old) }
    requires put { length (P.put_pages pages.old) + 2 ≤ CHANGE_LIMIT }
    requires place { at < length branches.old.items }
    requires few { length branches.old.items ≤ MOST_BRANCHES }
    requires behind { 1 ≤ at }
    requires entries { length entries.now < LEAST_ENTRIES }
    requires tree { IsTrue (P.is_known pages.old)
        → HasLostRow (HasCorners S.joined (F.entry_box boxes.now) (F.keys_of boxes.now)) (F.entry_box boxes.now) (P.in_pool pages.old) (P.page_at pages.old) (P.free pages.old) 0
        (take at branches.old.items) (child_at branches.old.items at) (Leaf entries.now) (drop (at + 1) branches.old.items) }
    ensures settles { IsTrue (P.is_known pages.old)
        → Settles (HasCorners S.joined (F.entry_box boxes.now) (F.keys_of boxes.now)) (P.page_at pages.old) (P.page_at pages.new) (P.free pages.old) (P.free pages.new) 0
        (take at branches.old.items) (child_at branches.old.items at) (Leaf entries.now) (drop (at + 1) branches.old.items) branches.new.items result }
    ensures count { (length branches.old.items ≤ length branches.new.items + 1) × (length branches.new.items ≤ length branches.old.items) }
    ensures pages { PagesShrink P.is_known P.has P.in_pool P.free P.is_open P.put_pages P.calm 1 2 pages.old pages.new }
    ensures sound { IsTrue (P.is_known pages.old) → IsNotDamaged result }
    ensures names { NamesTested result }
    ensures fault { CountsTreeFault result (P.faults pages.old) (P.faults pages.new) }
{
    let previous = read_leaf(pages, n, branches[at - 1].child)?;
    let own = previous.len();
    let rows = joined(previous, entries);
    mend_pair(pages, n, branches, at - 1, &rows, own, boxes)
}
