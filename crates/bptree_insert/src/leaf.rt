//! Leaves that an entry is put into.
ghost use Rattle.std.specs.Prelude.{◌≡◌, ℕ, ◌+◌, ◌<◌, ◌≤◌, true, false, List, IsTrue, IsSome, Some, None, IfOk, MatchOption, MatchResult, length, slice_index_or};
ghost use Rattle.std.specs.List.{AllByRecursion, insert as inserted};
ghost use Rattle.page_laws.specs.Errors.{CountsTreeFault, IsNotDamaged};
ghost use Rattle.page_laws.specs.Pages.{is_live};
ghost use Rattle.page_laws.specs.declared.errors.TreeError.TheVariants as tree;
ghost use Rattle.page_laws.specs.declared.rule.Rule.TheVariants as rule;
ghost use Rattle.page_laws.specs.declared.pages.TheConstants.{CHANGE_LIMIT};
ghost use Rattle.bptree_node.specs.declared.layout.TheConstants.{MOST_ENTRIES};
ghost use Rattle.bptree_node.specs.declared.rows.Entry.{Entry};
ghost use Rattle.bptree_node.specs.Nodes.{Leaf, node_in, is_leaf, row_count, entries_of as leaf_entries};
ghost use Rattle.node_edit.specs.Rows.{entries_on, IsLeaf};
ghost use Rattle.bptree_node.specs.Summaries.{summary_of, HasCorners};
ghost use Rattle.bptree_insert.specs.Rows.{entry_before};
ghost use Rattle.bptree_insert.specs.Spots.{IsSpot};
ghost use Rattle.bptree_insert.specs.Steps.{CanTake, AreMade, StoresLeaf, Grows};
ghost use Rattle.bptree_edit.specs.Steps.{PagesGrow, IsWritten, NamesTested};
ghost use Rattle.bptree_edit.specs.Parts.{IsLeafPart};

use crate::grown::{Boxed, Grown};
use crate::node::put_node;
use bptree_edit::{damaged, entries_of, goes_before, leaf_part, put_leaf};
use bptree_node::{Boxes, Entry, LEAST_ENTRIES, MOST_ENTRIES, NodeView, Summary, read_node};
use node_edit::insert_entry;
use page_laws::{PAGE_SIZE, Pages, Rule, TreeError};

/// Inserts an entry into the leaf that page `n` is.
pub(crate) fn insert_in_leaf<P: Pages, S: Summary, F: Boxes<S>>(
    pages: &mut P,
    n: u32,
    page: &[u8; PAGE_SIZE],
    e: &Boxed<S>,
    boxes: &F,
) -> Result<Grown<S>, TreeError>
    requires live { IsTrue (is_live (P.in_pool pages.old) (P.free pages.old) n) }
    requires open { IsTrue (P.is_open pages.old) }
    requires free { 1 ≤ length (P.free pages.old) }
    requires put { length (P.put_pages pages.old) + 2 ≤ CHANGE_LIMIT }
    requires page { IsTrue (P.is_known pages.old) → page.now ≡ P.page_at pages.old n }
    requires tree { IsTrue (P.is_known pages.old)
        → CanTake (HasCorners S.joined (F.entry_box boxes.now) (F.keys_of boxes.now)) (F.entry_box boxes.now) (P.in_pool pages.old) e.now.entry (P.page_at pages.old) (P.free pages.old) 0 n }
    requires summary { F.entry_box boxes.now e.now.entry ≡ Some e.now.summary }
    ensures grows { IsTrue (P.is_known pages.old)
        → Grows S.joined (F.entry_box boxes.now) (F.keys_of boxes.now) e.now.entry (P.page_at pages.old) (P.page_at pages.new) (P.free pages.old) (P.free pages.new) 0 n result }
    ensures made { IfOk result (AreMade (F.is_made boxes.now)) }
    ensures pages { PagesGrow P.is_known P.has P.in_pool P.free P.is_open P.put_pages P.calm 1 2 pages.old pages.new }
    ensures sound { IsTrue (P.is_known pages.old) → IsNotDamaged result }
    ensures names { NamesTested result }
    ensures fault { CountsTreeFault result (P.faults pages.old) (P.faults pages.new) }
{
    let spot = spot_for(page, n, &e.entry)?;
    if spot.is_full {
        return divide_leaf(pages, n, page, spot.at, &e.entry, boxes);
    }
    let mut page = *page;
    insert_entry(&mut page, spot.at, &e.entry);
    put_node(pages, n, &page);
    Ok(Grown::Whole)
}

/// An entry's place in a leaf.
#[derive(Clone, Copy, Debug)]
pub(crate) struct Spot {
    /// The place: behind all entries that go before it.
    pub(crate) at: usize,
    /// Whether the leaf has no room for one more.
    pub(crate) is_full: bool,
}

/// The place of an entry in the leaf that page `n` is. The entries are read where they stand.
fn spot_for(page: &[u8; PAGE_SIZE], n: u32, e: &Entry) -> Result<Spot, TreeError>
    ensures spot { MatchResult result (IsSpot page.now e.now)
        (λ why. (why ≡ tree.Damaged n rule.Node) × ((entries : List Entry) → node_in page.now ≡ Some (Leaf entries) → ⊥)) }
{
    let node = match read_node(page) {
        Ok(node) => node,
        Err(_) => return Err(damaged(n, Rule::Node)),
    };
    if !node.is_leaf() {
        return Err(damaged(n, Rule::Node));
    }
    Ok(Spot {
        at: place_in(&node, e),
        is_full: node.count() == MOST_ENTRIES,
    })
}

/// Where an entry's place is: behind all that go before it.
fn place_in(node: &NodeView, e: &Entry) -> usize
    requires leaf { IsTrue (is_leaf node.now) }
    ensures place { result ≤ row_count node.now }
    ensures before { (k : ℕ) (d : Entry) → k < result → entry_before e.now (slice_index_or (leaf_entries node.now) k d) ≡ false }
    ensures after { (d : Entry) → result < row_count node.now → entry_before e.now (slice_index_or (leaf_entries node.now) result d) ≡ true }
{
    for i in 0..node.count() {
        let other = node.entry(i);
        if goes_before(e.key, e.id, other.key, other.id) {
            return i;
        }
    }
    node.count()
}

/// Splits the leaf that page `n` is, with an entry more at its place.
fn divide_leaf<P: Pages, S: Summary, F: Boxes<S>>(
    pages: &mut P,
    n: u32,
    page: &[u8; PAGE_SIZE],
    at: usize,
    e: &Entry,
    boxes: &F,
) -> Result<Grown<S>, TreeError>
    requires live { IsTrue (is_live (P.in_pool pages.old) (P.free pages.old) n) }
    requires open { IsTrue (P.is_open pages.old) }
    requires free { 1 ≤ length (P.free pages.old) }
    requires put { length (P.put_pages pages.old) + 2 ≤ CHANGE_LIMIT }
    requires leaf { IsLeaf page.now }
    requires place { at ≤ length (entries_on page.now) }
    ensures stores { StoresLeaf S.joined (F.entry_box boxes.now) n (inserted (entries_on page.now) at e.now) (P.page_at pages.old) (P.page_at pages.new) (P.free pages.old) (P.free pages.new) result }
    ensures made { IfOk result (AreMade (F.is_made boxes.now)) }
    ensures pages { PagesGrow P.is_known P.has P.in_pool P.free P.is_open P.put_pages P.calm 1 2 pages.old pages.new }
    ensures sound { AllByRecursion (λ (f : Entry). IsSome (F.entry_box boxes.now f)) (inserted (entries_on page.now) at e.now) → IsNotDamaged result }
    ensures names { NamesTested result }
    ensures fault { CountsTreeFault result (P.faults pages.old) (P.faults pages.new) }
{
    let mut entries = entries_of(page, n)?;
    entries.insert(at, *e);
    store_leaf(pages, n, &entries, boxes)
}

/// Writes the leaf of 1 to 31 entries to page `n`. Of 31 the last 16 go to a page that is taken.
fn store_leaf<P: Pages, S: Summary, F: Boxes<S>>(
    pages: &mut P,
    n: u32,
    entries: &[Entry],
    boxes: &F,
) -> Result<Grown<S>, TreeError>
    requires live { IsTrue (is_live (P.in_pool pages.old) (P.free pages.old) n) }
    requires open { IsTrue (P.is_open pages.old) }
    requires free { 1 ≤ length (P.free pages.old) }
    requires put { length (P.put_pages pages.old) + 2 ≤ CHANGE_LIMIT }
    requires some { 1 ≤ length entries.now }
    requires few { length entries.now ≤ MOST_ENTRIES + 1 }
    ensures stores { StoresLeaf S.joined (F.entry_box boxes.now) n entries.now (P.page_at pages.old) (P.page_at pages.new) (P.free pages.old) (P.free pages.new) result }
    ensures made { IfOk result (AreMade (F.is_made boxes.now)) }
    ensures pages { PagesGrow P.is_known P.has P.in_pool P.free P.is_open P.put_pages P.calm 1 2 pages.old pages.new }
    ensures sound { AllByRecursion (λ (f : Entry). IsSome (F.entry_box boxes.now f)) entries.now → IsNotDamaged result }
    ensures names { NamesTested result }
    ensures fault { CountsTreeFault result (P.faults pages.old) (P.faults pages.new) }
{
    if entries.len() <= MOST_ENTRIES {
        put_leaf(pages, n, entries);
        return Ok(Grown::Whole);
    }
    let (low, high) = entries.split_at(LEAST_ENTRIES);
    let Some(left) = leaf_part(low, n, boxes) else {
        return Err(damaged(n, Rule::Key));
    };
    let Some(mut right) = leaf_part(high, n, boxes) else {
        return Err(damaged(n, Rule::Key));
    };
    right.page = pages.take_page();
    put_leaf(pages, n, low);
    put_leaf(pages, right.page, high);
    Ok(Grown::Split(left, right))
}
