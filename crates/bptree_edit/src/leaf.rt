//! The entries of leaves.
ghost use Rattle.std.specs.Prelude.{◌≡◌, ◌+◌, ◌<◌, ◌≤◌, List, IsTrue, Some, None, IfOk, MatchOption, MatchResult, length};
ghost use Rattle.page_laws.specs.declared.errors.TreeError.TheVariants as tree;
ghost use Rattle.page_laws.specs.declared.rule.Rule.TheVariants as rule;
ghost use Rattle.page_laws.specs.declared.pages.TheConstants.{CHANGE_LIMIT};
ghost use Rattle.bptree_node.specs.declared.layout.TheConstants.{MOST_ENTRIES};
ghost use Rattle.bptree_node.specs.declared.rows.Entry.{Entry};
ghost use Rattle.bptree_node.specs.Nodes.{Leaf, node_in};
ghost use Rattle.bptree_node.specs.Summaries.{summary_of};
ghost use Rattle.bptree_edit.specs.Parts.{IsLeafPart};
ghost use Rattle.bptree_edit.specs.Steps.{PagesGrow, IsWritten};

use crate::{Part, damaged};
use arrayvec::ArrayVec;
use bptree_node::{Boxes, Entry, Summary, read_node, write_leaf};
use page_laws::{PAGE_SIZE, Pages, Rule, TreeError};

/// The entries of a leaf, with room for those of another one that has too few: 30 and 14.
pub type Entries = ArrayVec<Entry, 44>;

/// The entries of the leaf that page `n` is.
pub fn entries_of(page: &[u8; PAGE_SIZE], n: u32) -> Result<Entries, TreeError>
    ensures leaf { MatchResult result (λ entries. node_in page.now ≡ Some (Leaf entries.items))
        (λ e. (e ≡ tree.Damaged n rule.Node) × ((entries : List Entry) → node_in page.now ≡ Some (Leaf entries) → ⊥)) }
    ensures count { IfOk result (λ entries. (1 ≤ length entries.items) × (length entries.items ≤ MOST_ENTRIES)) }
{
    let node = match read_node(page) {
        Ok(node) => node,
        Err(_) => return Err(damaged(n, Rule::Node)),
    };
    if !node.is_leaf() {
        return Err(damaged(n, Rule::Node));
    }
    let mut entries = ArrayVec::new();
    for i in 0..node.count() {
        entries.push(node.entry(i));
    }
    Ok(entries)
}

/// Makes page `n` the leaf of these entries, 1 to 30 of them.
pub fn put_leaf<P: Pages>(pages: &mut P, n: u32, entries: &[Entry])
    requires open { IsTrue (P.is_open pages.old) }
    requires pool { IsTrue (P.in_pool pages.old n) }
    requires put { length (P.put_pages pages.old) < CHANGE_LIMIT }
    requires some { 1 ≤ length entries.now }
    requires few { length entries.now ≤ MOST_ENTRIES }
    ensures written { IsWritten n (Leaf entries.now) (P.page_at pages.old) (P.page_at pages.new) }
    ensures free { P.free pages.new ≡ P.free pages.old }
    ensures pages { PagesGrow P.is_known P.has P.in_pool P.free P.is_open P.put_pages P.calm 0 1 pages.old pages.new }
    ensures faults { P.faults pages.new ≡ P.faults pages.old }
{
    let mut page = [0; PAGE_SIZE];
    write_leaf(entries, &mut page);
    pages.put(n, &page);
}

/// What a branch is made from for the leaf of these entries on a page, or None if one of them has a
/// key that is none of the tree.
pub fn leaf_part<S: Summary, F: Boxes<S>>(
    entries: &[Entry],
    page: u32,
    boxes: &F,
) -> Option<Part<S>>
    requires { 1 ≤ length entries.now }
    ensures part { MatchOption result (summary_of S.joined (F.entry_box boxes.now) entries.now ≡ None) (IsLeafPart S.joined (F.entry_box boxes.now) page entries.now) }
    ensures made { MatchOption result Unit (λ part. F.is_made boxes.now part.summary) }
{
    let first = entries[0];
    let summary = summary_of_entries(entries, boxes)?;
    Some(Part {
        key: first.key,
        id: first.id,
        page,
        summary,
    })
}

/// The summary of one or more entries, or None if one of them has a key that is none of the tree.
fn summary_of_entries<S: Summary, F: Boxes<S>>(entries: &[Entry], boxes: &F) -> Option<S>
    requires { 1 ≤ length entries.now }
    ensures is { result ≡ summary_of S.joined (F.entry_box boxes.now) entries.now }
    ensures made { MatchOption result Unit (F.is_made boxes.now) }
{
    let mut summary = boxes.of_entry(&entries[0])?;
    for entry in &entries[1..] {
        summary = summary.join(&boxes.of_entry(entry)?);
    }
    Some(summary)
}
