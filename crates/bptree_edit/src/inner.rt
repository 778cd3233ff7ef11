//! The branches of inner nodes.
ghost use Rattle.std.specs.Prelude.{◌≡◌, ◌+◌, ◌<◌, ◌≤◌, true, false, List, IsTrue, Some, None, IfOk, MatchOption, MatchResult, length, slice_index_or};
ghost use Rattle.page_laws.specs.declared.errors.TreeError.TheVariants as tree;
ghost use Rattle.page_laws.specs.declared.rule.Rule.TheVariants as rule;
ghost use Rattle.page_laws.specs.declared.pages.TheConstants.{CHANGE_LIMIT};
ghost use Rattle.bptree_node.specs.declared.layout.TheConstants.{MOST_BRANCHES};
ghost use Rattle.bptree_node.specs.declared.rows.Branch.{Branch};
ghost use Rattle.bptree_node.specs.Nodes.{Inner, node_in};
ghost use Rattle.bptree_node.specs.Summaries.{summary_of};
ghost use Rattle.bptree_edit.specs.Parts.{before_branch, IsInnerPart};
ghost use Rattle.bptree_edit.specs.Steps.{PagesGrow, IsWritten};

use crate::{Part, damaged, goes_before};
use arrayvec::ArrayVec;
use bptree_node::{Boxes, Branch, Summary, read_node, write_inner};
use page_laws::{PAGE_SIZE, Pages, Rule, TreeError};

/// The branches of an inner node, with room for those of another one that has too few: 14 and 6.
pub type Branches = ArrayVec<Branch, 20>;

/// The branches of the inner node that page `n` is.
pub fn branches_of(page: &[u8; PAGE_SIZE], n: u32) -> Result<Branches, TreeError>
    ensures inner { MatchResult result (λ branches. node_in page.now ≡ Some (Inner branches.items))
        (λ e. (e ≡ tree.Damaged n rule.Node) × ((branches : List Branch) → node_in page.now ≡ Some (Inner branches) → ⊥)) }
    ensures count { IfOk result (λ branches. (2 ≤ length branches.items) × (length branches.items ≤ MOST_BRANCHES)) }
{
    let node = match read_node(page) {
        Ok(node) => node,
        Err(_) => return Err(damaged(n, Rule::Node)),
    };
    if node.is_leaf() {
        return Err(damaged(n, Rule::Node));
    }
    let mut branches = ArrayVec::new();
    for i in 0..node.count() {
        branches.push(node.branch(i));
    }
    Ok(branches)
}

/// Under which of one or more branches the place of a key and an id is: the last one that doesn't go
/// behind them, or the first.
pub fn child_for(branches: &[Branch], key: u64, id: u32) -> usize
    requires { 1 ≤ length branches.now }
    ensures place { result < length branches.now }
    ensures before { (d : Branch) → 0 < result → before_branch key id (slice_index_or branches.now result d) ≡ false }
    ensures after { (d : Branch) → result + 1 < length branches.now → before_branch key id (slice_index_or branches.now (result + 1) d) ≡ true }
{
    branches[1..]
        .iter()
        .position(|branch| goes_before(key, id, branch.key, branch.id))
        .unwrap_or(branches.len() - 1)
}

/// Makes page `n` the inner node of these branches, 2 to 14 of them.
pub fn put_inner<P: Pages>(pages: &mut P, n: u32, branches: &[Branch])
    requires open { IsTrue (P.is_open pages.old) }
    requires pool { IsTrue (P.in_pool pages.old n) }
    requires put { length (P.put_pages pages.old) < CHANGE_LIMIT }
    requires some { 2 ≤ length branches.now }
    requires few { length branches.now ≤ MOST_BRANCHES }
    ensures written { IsWritten n (Inner branches.now) (P.page_at pages.old) (P.page_at pages.new) }
    ensures free { P.free pages.new ≡ P.free pages.old }
    ensures pages { PagesGrow P.is_known P.has P.in_pool P.free P.is_open P.put_pages P.calm 0 1 pages.old pages.new }
    ensures faults { P.faults pages.new ≡ P.faults pages.old }
{
    let mut page = [0; PAGE_SIZE];
    write_inner(branches, &mut page);
    pages.put(n, &page);
}

/// What a branch is made from for the inner node of these branches on a page, or None if the corners
/// of one of them are those of no box.
pub fn inner_part<S: Summary, F: Boxes<S>>(
    branches: &[Branch],
    page: u32,
    boxes: &F,
) -> Option<Part<S>>
    requires { 1 ≤ length branches.now }
    ensures part { MatchOption result (summary_of S.joined (λ (b : Branch). F.branch_box boxes.now b.low b.high) branches.now ≡ None)
        (IsInnerPart S.joined (F.branch_box boxes.now) page branches.now) }
    ensures made { MatchOption result Unit (λ part. F.is_made boxes.now part.summary) }
{
    let first = branches[0];
    let summary = summary_of_branches(branches, boxes)?;
    Some(Part {
        key: first.key,
        id: first.id,
        page,
        summary,
    })
}

/// The summary of all under one or more branches, or None if the corners of one of them are those of
/// no box.
fn summary_of_branches<S: Summary, F: Boxes<S>>(branches: &[Branch], boxes: &F) -> Option<S>
    requires { 1 ≤ length branches.now }
    ensures is { result ≡ summary_of S.joined (λ (b : Branch). F.branch_box boxes.now b.low b.high) branches.now }
    ensures made { MatchOption result Unit (F.is_made boxes.now) }
{
    let mut summary = boxes.of_branch(branches[0].low, branches[0].high)?;
    for branch in &branches[1..] {
        summary = summary.join(&boxes.of_branch(branch.low, branch.high)?);
    }
    Some(summary)
}
