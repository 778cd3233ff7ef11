//! Two inner nodes that are neighbours.
ghost use Rattle.std.specs.Prelude.{◌≡◌, ◌+◌, ◌<◌, ◌≤◌, IsTrue, IsSome, IfOk, IfErr, MatchOption, length, take};
ghost use Rattle.std.specs.List.{AllByRecursion};
ghost use Rattle.page_laws.specs.Errors.{IsNotDamaged};
ghost use Rattle.page_laws.specs.Pages.{is_live};
ghost use Rattle.page_laws.specs.declared.errors.TreeError.TheVariants as tree;
ghost use Rattle.page_laws.specs.declared.rule.Rule.TheVariants as rule;
ghost use Rattle.page_laws.specs.declared.pages.TheConstants.{CHANGE_LIMIT};
ghost use Rattle.bptree_node.specs.declared.layout.TheConstants.{LEAST_BRANCHES, MOST_BRANCHES};
ghost use Rattle.bptree_node.specs.declared.rows.Branch.{Branch};
ghost use Rattle.bptree_node.specs.Nodes.{Inner};
ghost use Rattle.bptree_node.specs.Summaries.{summary_of};
ghost use Rattle.bptree_edit.specs.Parts.{IsInnerPart};
ghost use Rattle.bptree_mend.specs.Mending.{PagesShrink, Mends, AreMade};

use crate::Mended;
use bptree_edit::{damaged, inner_part, put_inner};
use bptree_node::{Boxes, Branch, MOST_BRANCHES, Summary};
use page_laws::{Pages, Rule, TreeError};

/// Stores the branches of two inner nodes that are neighbours, in their order; the first `own` of them
/// were those of page `left`. If one node has room for all, that page gets them, and page `right` is
/// given back. Else each page gets a half. The branches are 2 to 20.
///
/// Damaged comes only for a branch whose corners are those of no box, with the page that it was on.
pub fn mend_inners<P: Pages, S: Summary, F: Boxes<S>>(
    pages: &mut P,
    left: u32,
    right: u32,
    branches: &[Branch],
    own: usize,
    boxes: &F,
) -> Result<Mended<S>, TreeError>
    requires left { IsTrue (is_live (P.in_pool pages.old) (P.free pages.old) left) }
    requires right { IsTrue (is_live (P.in_pool pages.old) (P.free pages.old) right) }
    requires open { IsTrue (P.is_open pages.old) }
    requires put { length (P.put_pages pages.old) + 2 ≤ CHANGE_LIMIT }
    requires some { 2 ≤ length branches.now }
    requires few { length branches.now < MOST_BRANCHES + LEAST_BRANCHES }
    requires own { (1 ≤ own) × (own ≤ length branches.now) }
    ensures mends { Mends Inner (IsInnerPart S.joined (F.branch_box boxes.now)) LEAST_BRANCHES MOST_BRANCHES left right branches.now
        (P.page_at pages.old) (P.page_at pages.new) (P.free pages.old) (P.free pages.new) result }
    ensures made { IfOk result (AreMade (F.is_made boxes.now)) }
    ensures pages { PagesShrink P.is_known P.has P.in_pool P.free P.is_open P.put_pages P.calm 1 2 pages.old pages.new }
    ensures sound { AllByRecursion (λ (b : Branch). IsSome (F.branch_box boxes.now b.low b.high)) branches.now → IsNotDamaged result }
    ensures damage { IfErr result (λ e. MatchOption (summary_of S.joined (λ (b : Branch). F.branch_box boxes.now b.low b.high) (take own branches.now)) (e ≡ tree.Damaged left rule.Box) (λ _. e ≡ tree.Damaged right rule.Box)) }
    ensures faults { P.faults pages.new ≡ P.faults pages.old }
{
    if branches.len() <= MOST_BRANCHES {
        let Some(part) = inner_part(branches, left, boxes) else {
            return Err(box_fault(&branches[..own], left, right, boxes));
        };
        put_inner(pages, left, branches);
        pages.give_page(right);
        return Ok(Mended::Joined(part));
    }
    let (low, high) = branches.split_at(branches.len() / 2);
    let Some(first) = inner_part(low, left, boxes) else {
        return Err(box_fault(&branches[..own], left, right, boxes));
    };
    let Some(second) = inner_part(high, right, boxes) else {
        return Err(box_fault(&branches[..own], left, right, boxes));
    };
    put_inner(pages, left, low);
    put_inner(pages, right, high);
    Ok(Mended::Evened(first, second))
}

/// The damage of corners that are those of no box: of page `left` if one of its own branches has them,
/// else of page `right`.
fn box_fault<S: Summary, F: Boxes<S>>(own: &[Branch], left: u32, right: u32, boxes: &F) -> TreeError
    requires { 1 ≤ length own.now }
    ensures { MatchOption (summary_of S.joined (λ (b : Branch). F.branch_box boxes.now b.low b.high) own.now) (result ≡ tree.Damaged left rule.Box) (λ _. result ≡ tree.Damaged right rule.Box) }
{
    match inner_part(own, left, boxes) {
        Some(_) => damaged(right, Rule::Box),
        None => damaged(left, Rule::Box),
    }
}
