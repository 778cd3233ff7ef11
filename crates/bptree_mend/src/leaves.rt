//! Two leaves that are neighbours.
ghost use Rattle.std.specs.Prelude.{◌≡◌, ◌+◌, ◌<◌, ◌≤◌, IsTrue, IsSome, IfOk, IfErr, MatchOption, length, take};
ghost use Rattle.std.specs.List.{AllByRecursion};
ghost use Rattle.page_laws.specs.Errors.{IsNotDamaged};
ghost use Rattle.page_laws.specs.Pages.{is_live};
ghost use Rattle.page_laws.specs.declared.errors.TreeError.TheVariants as tree;
ghost use Rattle.page_laws.specs.declared.rule.Rule.TheVariants as rule;
ghost use Rattle.page_laws.specs.declared.pages.TheConstants.{CHANGE_LIMIT};
ghost use Rattle.bptree_node.specs.declared.layout.TheConstants.{LEAST_ENTRIES, MOST_ENTRIES};
ghost use Rattle.bptree_node.specs.declared.rows.Entry.{Entry};
ghost use Rattle.bptree_node.specs.Nodes.{Leaf};
ghost use Rattle.bptree_node.specs.Summaries.{summary_of};
ghost use Rattle.bptree_edit.specs.Parts.{IsLeafPart};
ghost use Rattle.bptree_mend.specs.Mending.{PagesShrink, Mends, AreMade};

use crate::Mended;
use bptree_edit::{damaged, leaf_part, put_leaf};
use bptree_node::{Boxes, Entry, MOST_ENTRIES, Summary};
use page_laws::{Pages, Rule, TreeError};

/// Stores the entries of two leaves that are neighbours, in their order; the first `own` of them were
/// those of page `left`. If one leaf has room for all, that page gets them, and page `right` is given
/// back. Else each page gets a half. The entries are 1 to 44.
///
/// Damaged comes only for an entry whose key is none of the tree, with the page that it was on.
pub fn mend_leaves<P: Pages, S: Summary, F: Boxes<S>>(
    pages: &mut P,
    left: u32,
    right: u32,
    entries: &[Entry],
    own: usize,
    boxes: &F,
) -> Result<Mended<S>, TreeError>
    requires left { IsTrue (is_live (P.in_pool pages.old) (P.free pages.old) left) }
    requires right { IsTrue (is_live (P.in_pool pages.old) (P.free pages.old) right) }
    requires open { IsTrue (P.is_open pages.old) }
    requires put { length (P.put_pages pages.old) + 2 ≤ CHANGE_LIMIT }
    requires some { 1 ≤ length entries.now }
    requires few { length entries.now < MOST_ENTRIES + LEAST_ENTRIES }
    requires own { (1 ≤ own) × (own ≤ length entries.now) }
    ensures mends { Mends Leaf (IsLeafPart S.joined (F.entry_box boxes.now)) LEAST_ENTRIES MOST_ENTRIES left right entries.now
        (P.page_at pages.old) (P.page_at pages.new) (P.free pages.old) (P.free pages.new) result }
    ensures made { IfOk result (AreMade (F.is_made boxes.now)) }
    ensures pages { PagesShrink P.is_known P.has P.in_pool P.free P.is_open P.put_pages P.calm 1 2 pages.old pages.new }
    ensures sound { AllByRecursion (λ (e : Entry). IsSome (F.entry_box boxes.now e)) entries.now → IsNotDamaged result }
    ensures damage { IfErr result (λ e. MatchOption (summary_of S.joined (F.entry_box boxes.now) (take own entries.now)) (e ≡ tree.Damaged left rule.Key) (λ _. e ≡ tree.Damaged right rule.Key)) }
    ensures faults { P.faults pages.new ≡ P.faults pages.old }
{
    if entries.len() <= MOST_ENTRIES {
        let Some(part) = leaf_part(entries, left, boxes) else {
            return Err(key_fault(&entries[..own], left, right, boxes));
        };
        put_leaf(pages, left, entries);
        pages.give_page(right);
        return Ok(Mended::Joined(part));
    }
    let (low, high) = entries.split_at(entries.len() / 2);
    let Some(first) = leaf_part(low, left, boxes) else {
        return Err(key_fault(&entries[..own], left, right, boxes));
    };
    let Some(second) = leaf_part(high, right, boxes) else {
        return Err(key_fault(&entries[..own], left, right, boxes));
    };
    put_leaf(pages, left, low);
    put_leaf(pages, right, high);
    Ok(Mended::Evened(first, second))
}

/// The damage of a key that is none of the tree: of page `left` if one of its own entries has it, else
/// of page `right`.
fn key_fault<S: Summary, F: Boxes<S>>(own: &[Entry], left: u32, right: u32, boxes: &F) -> TreeError
    requires { 1 ≤ length own.now }
    ensures { MatchOption (summary_of S.joined (F.entry_box boxes.now) own.now) (result ≡ tree.Damaged left rule.Key) (λ _. result ≡ tree.Damaged right rule.Key) }
{
    match leaf_part(own, left, boxes) {
        Some(_) => damaged(right, Rule::Key),
        None => damaged(left, Rule::Key),
    }
}
