//! Which rule an entry breaks.
ghost use Rattle.std.specs.Prelude.{◌≡◌, None, Contains, IsTrue, IfSome, IfOk, MatchResult};
ghost use Rattle.page_laws.specs.Calls.{PagesStay};
ghost use Rattle.page_laws.specs.Errors.{CountsTreeFault, TellsNoDamage};
ghost use Rattle.page_laws.specs.Pages.{is_live};
ghost use Rattle.bptree_node.specs.declared.rows.Entry.{Entry};
ghost use Rattle.bptree_node.specs.Nodes.{node_in};
ghost use Rattle.bptree_node.specs.Trees.{node_entries};
ghost use Rattle.entry_match.specs.Matching.{is_match, tested_box};
ghost use Rattle.entry_match.specs.Mismatches.{BreaksEntry, HasBroken};

use crate::MatchedBoxes;
use bptree_edit::entries_of;
use bptree_node::{Boxes, Entry, Summary};
use page_laws::{PAGE_SIZE, Pages, Rule, TreeError};

/// The rule that an entry breaks, or None if it has a box.
fn broken_rule<S: Summary, F: Boxes<S>>(e: &Entry, boxes: &MatchedBoxes<'_, F>) -> Option<Rule>
    ensures breaks { IfSome result (BreaksEntry (F.entry_box boxes.now.boxes.now) boxes.now.notes.now boxes.now.collection boxes.now.by_key e.now) }
    ensures none { result ≡ None
        → tested_box (F.entry_box boxes.now.boxes.now) (is_match boxes.now.notes.now boxes.now.collection boxes.now.by_key) e.now ≡ None → ⊥ }
{
    if !boxes.is_named(e) {
        return Some(Rule::Slot);
    }
    if boxes.by_key && !boxes.is_keyed(e) {
        return Some(Rule::Key);
    }
    if boxes.boxes.of_entry(e).is_none() {
        return Some(Rule::Key);
    }
    None
}

/// The rule that the first entry without a box breaks.
fn first_broken<S: Summary, F: Boxes<S>>(entries: &[Entry], boxes: &MatchedBoxes<'_, F>) -> Rule
    ensures { (entry : Entry) → Contains entries.now entry
        → tested_box (F.entry_box boxes.now.boxes.now) (is_match boxes.now.notes.now boxes.now.collection boxes.now.by_key) entry ≡ None
        → HasBroken (F.entry_box boxes.now.boxes.now) boxes.now.notes.now boxes.now.collection boxes.now.by_key entries.now result }
{
    for i in 0..entries.len() {
        if let Some(rule) = broken_rule(&entries[i], boxes) {
            return rule;
        }
    }
    Rule::Key
}

/// The rule that an entry of a leaf breaks, if one of them has no box. It reads the leaf.
pub(crate) fn leaf_rule<P: Pages, S: Summary, F: Boxes<S>>(
    pages: &mut P,
    n: u32,
    boxes: &MatchedBoxes<'_, F>,
) -> Result<Rule, TreeError>
    ensures rule { IsTrue (P.is_known pages.old) → IsTrue (is_live (P.in_pool pages.old) (P.free pages.old) n)
        → (entry : Entry) → Contains (node_entries (node_in (P.page_at pages.old n))) entry
        → tested_box (F.entry_box boxes.now.boxes.now) (is_match boxes.now.notes.now boxes.now.collection boxes.now.by_key) entry ≡ None
        → MatchResult result
        (HasBroken (F.entry_box boxes.now.boxes.now) boxes.now.notes.now boxes.now.collection boxes.now.by_key (node_entries (node_in (P.page_at pages.old n)))) TellsNoDamage }
    ensures stay { PagesStay P.is_known P.has P.in_pool P.page_at P.free P.is_open P.put_pages P.calm pages.old pages.new }
    ensures fault { CountsTreeFault result (P.faults pages.old) (P.faults pages.new) }
{
    if !pages.is_live(n) {
        return Ok(Rule::Key);
    }
    let mut page = [0; PAGE_SIZE];
    pages.get(n, &mut page)?;
    let entries = entries_of(&page, n)?;
    Ok(first_broken(&entries, boxes))
}
