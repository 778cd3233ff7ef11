//! Inner nodes whose branches change.
ghost use Rattle.std.specs.Prelude.{◌≡◌, ◌+◌, ◌<◌, ◌≤◌, [], ◌∷◌, true, false, List, IsTrue, IsSome, Some, None, IfOk, MatchOption, MatchResult, length, slice_index_or};
ghost use Rattle.std.specs.List.{AllByRecursion, replace_range};
ghost use Rattle.page_laws.specs.Errors.{CountsTreeFault, IsNotDamaged};
ghost use Rattle.page_laws.specs.Pages.{is_live};
ghost use Rattle.page_laws.specs.declared.errors.TreeError.TheVariants as tree;
ghost use Rattle.page_laws.specs.declared.rule.Rule.TheVariants as rule;
ghost use Rattle.page_laws.specs.declared.pages.TheConstants.{CHANGE_LIMIT};
ghost use Rattle.bptree_node.specs.declared.layout.TheConstants.{MOST_BRANCHES};
ghost use Rattle.bptree_node.specs.declared.rows.Branch.{Branch};
ghost use Rattle.bptree_node.specs.Nodes.{Inner, node_in};
ghost use Rattle.bptree_node.specs.Summaries.{summary_of};
ghost use Rattle.bptree_edit.specs.Parts.{before_branch, branch_of, IsInnerPart};
ghost use Rattle.bptree_insert.specs.Steps as words;
ghost use Rattle.bptree_edit.specs.Steps.{PagesGrow, IsWritten, NamesTested};
ghost use Rattle.bptree_insert.specs.Steps.{IsJoined, AreMade, StoresInner, Restores, HaveBranchBoxes, IsWidened};
ghost use Rattle.bptree_insert.specs.Ways.{branches_on, IsBranchAt};
ghost use Rattle.bptree_insert.specs.declared.grown.Grown.TheVariants.{Whole};

use crate::grown::{Boxed, Grown};
use crate::node::put_node;
use crate::way::Way;
use bptree_edit::{Part, branch_of, branches_of, damaged, goes_before, inner_part, put_inner};
use bptree_node::{Boxes, Branch, Entry, LEAST_BRANCHES, MOST_BRANCHES, Summary};
use node_edit::set_branch;
use page_laws::{PAGE_SIZE, Pages, Rule, TreeError};

/// Makes of the inner node that page `n` holds, as `page`, what it is once the node under the way's
/// branch has grown. It puts the page only where a branch changes.
pub(crate) fn restore<P: Pages, S: Summary, F: Boxes<S>>(
    pages: &mut P,
    n: u32,
    page: &[u8; PAGE_SIZE],
    way: &Way,
    below: Grown<S>,
    e: &Boxed<S>,
    boxes: &F,
) -> Result<Grown<S>, TreeError>
    requires live { IsTrue (is_live (P.in_pool pages.old) (P.free pages.old) n) }
    requires open { IsTrue (P.is_open pages.old) }
    requires free { 1 ≤ length (P.free pages.old) }
    requires put { length (P.put_pages pages.old) + 2 ≤ CHANGE_LIMIT }
    requires way { IsBranchAt page.now way.now }
    requires summary { F.entry_box boxes.now e.now.entry ≡ Some e.now.summary }
    requires made { AreMade (F.is_made boxes.now) below }
    ensures stores { Restores S.joined (F.branch_box boxes.now) (F.keys_of boxes.now) e.now n page.now way.now below (P.page_at pages.old) (P.page_at pages.new) (P.free pages.old) (P.free pages.new) result }
    ensures made { IfOk result (AreMade (F.is_made boxes.now)) }
    ensures pages { PagesGrow P.is_known P.has P.in_pool P.free P.is_open P.put_pages P.calm 1 2 pages.old pages.new }
    ensures sound { HaveBranchBoxes S.joined (F.branch_box boxes.now) (F.keys_of boxes.now) e.now page.now way.now below → IsNotDamaged result }
    ensures names { NamesTested result }
    ensures fault { CountsTreeFault result (P.faults pages.old) (P.faults pages.new) }
{
    match below {
        Grown::Same => Ok(Grown::Same),
        Grown::Whole => widen(pages, n, page, way, e, boxes),
        Grown::Split(left, right) => divide(pages, n, page, way, &left, &right, boxes),
    }
}

/// Widens the way's branch by the entry. The page is put unless that leaves the branch as it is.
fn widen<P: Pages, S: Summary, F: Boxes<S>>(
    pages: &mut P,
    n: u32,
    page: &[u8; PAGE_SIZE],
    way: &Way,
    e: &Boxed<S>,
    boxes: &F,
) -> Result<Grown<S>, TreeError>
    requires live { IsTrue (is_live (P.in_pool pages.old) (P.free pages.old) n) }
    requires open { IsTrue (P.is_open pages.old) }
    requires put { length (P.put_pages pages.old) + 2 ≤ CHANGE_LIMIT }
    requires way { IsBranchAt page.now way.now }
    requires summary { F.entry_box boxes.now e.now.entry ≡ Some e.now.summary }
    ensures stores { Restores S.joined (F.branch_box boxes.now) (F.keys_of boxes.now) e.now n page.now way.now Whole (P.page_at pages.old) (P.page_at pages.new) (P.free pages.old) (P.free pages.new) result }
    ensures made { IfOk result (AreMade (F.is_made boxes.now)) }
    ensures pages { PagesGrow P.is_known P.has P.in_pool P.free P.is_open P.put_pages P.calm 0 1 pages.old pages.new }
    ensures sound { HaveBranchBoxes S.joined (F.branch_box boxes.now) (F.keys_of boxes.now) e.now page.now way.now Whole → IsNotDamaged result }
    ensures names { NamesTested result }
    ensures fault { CountsTreeFault result (P.faults pages.old) (P.faults pages.new) }
{
    let Some(wide) = widened(&way.branch, e, boxes) else {
        return Err(damaged(n, Rule::Box));
    };
    if is_same(&wide, &way.branch) {
        return Ok(Grown::Same);
    }
    let mut page = *page;
    set_branch(&mut page, way.at, &wide);
    put_node(pages, n, &page);
    Ok(Grown::Whole)
}

/// Puts the branches of two nodes into the place of the way's branch, whose node was split into them.
fn divide<P: Pages, S: Summary, F: Boxes<S>>(
    pages: &mut P,
    n: u32,
    page: &[u8; PAGE_SIZE],
    way: &Way,
    left: &Part<S>,
    right: &Part<S>,
    boxes: &F,
) -> Result<Grown<S>, TreeError>
    requires live { IsTrue (is_live (P.in_pool pages.old) (P.free pages.old) n) }
    requires open { IsTrue (P.is_open pages.old) }
    requires free { 1 ≤ length (P.free pages.old) }
    requires put { length (P.put_pages pages.old) + 2 ≤ CHANGE_LIMIT }
    requires way { IsBranchAt page.now way.now }
    requires left { F.is_made boxes.now left.now.summary }
    requires right { F.is_made boxes.now right.now.summary }
    ensures stores { let rows = replace_range (branches_on page.now) way.now.at (way.now.at + 1) (branch_of (F.keys_of boxes.now) left.now ∷ branch_of (F.keys_of boxes.now) right.now ∷ []) in
        StoresInner S.joined (F.branch_box boxes.now) n rows (P.page_at pages.old) (P.page_at pages.new) (P.free pages.old) (P.free pages.new) result }
    ensures made { IfOk result (AreMade (F.is_made boxes.now)) }
    ensures pages { PagesGrow P.is_known P.has P.in_pool P.free P.is_open P.put_pages P.calm 1 2 pages.old pages.new }
    ensures sound { let rows = replace_range (branches_on page.now) way.now.at (way.now.at + 1) (branch_of (F.keys_of boxes.now) left.now ∷ branch_of (F.keys_of boxes.now) right.now ∷ []) in
        AllByRecursion (λ (b : Branch). IsSome (F.branch_box boxes.now b.low b.high)) rows → IsNotDamaged result }
    ensures names { NamesTested result }
    ensures fault { CountsTreeFault result (P.faults pages.old) (P.faults pages.new) }
{
    let mut branches = branches_of(page, n)?;
    branches[way.at] = branch_of(left, boxes);
    branches.insert(way.at + 1, branch_of(right, boxes));
    store_inner(pages, n, &branches, boxes)
}

/// Whether two branches are the same.
fn is_same(branch: &Branch, other: &Branch) -> bool
    ensures { IsTrue result → branch.now ≡ other.now }
{
    branch == other
}

/// The branch with one entry more under it, or None if its corners are those of no box.
fn widened<S: Summary, F: Boxes<S>>(branch: &Branch, e: &Boxed<S>, boxes: &F) -> Option<Branch>
    requires { F.entry_box boxes.now e.now.entry ≡ Some e.now.summary }
    ensures { MatchOption result (F.branch_box boxes.now branch.now.low branch.now.high ≡ None)
        (IsWidened S.joined (F.branch_box boxes.now) (F.keys_of boxes.now) e.now branch.now) }
{
    let summary = boxes.of_branch(branch.low, branch.high)?.join(&e.summary);
    let (low, high) = boxes.as_keys(&summary);
    let (key, id) = earlier(branch, &e.entry);
    Some(Branch {
        key,
        id,
        child: branch.child,
        low,
        high,
    })
}

/// The key and the id of the branch or of the entry, whichever come first.
fn earlier(branch: &Branch, e: &Entry) -> (u64, u32)
    ensures { result ≡ words.earlier branch.now e.now }
{
    if goes_before(e.key, e.id, branch.key, branch.id) {
        (e.key, e.id)
    } else {
        (branch.key, branch.id)
    }
}

/// Writes the inner node of 2 to 15 branches to page `n`. Of 15 the last 8 go to a page that is taken.
pub(crate) fn store_inner<P: Pages, S: Summary, F: Boxes<S>>(
    pages: &mut P,
    n: u32,
    branches: &[Branch],
    boxes: &F,
) -> Result<Grown<S>, TreeError>
    requires live { IsTrue (is_live (P.in_pool pages.old) (P.free pages.old) n) }
    requires open { IsTrue (P.is_open pages.old) }
    requires free { 1 ≤ length (P.free pages.old) }
    requires put { length (P.put_pages pages.old) + 2 ≤ CHANGE_LIMIT }
    requires some { 2 ≤ length branches.now }
    requires few { length branches.now ≤ MOST_BRANCHES + 1 }
    ensures stores { StoresInner S.joined (F.branch_box boxes.now) n branches.now (P.page_at pages.old) (P.page_at pages.new) (P.free pages.old) (P.free pages.new) result }
    ensures made { IfOk result (AreMade (F.is_made boxes.now)) }
    ensures pages { PagesGrow P.is_known P.has P.in_pool P.free P.is_open P.put_pages P.calm 1 2 pages.old pages.new }
    ensures sound { AllByRecursion (λ (b : Branch). IsSome (F.branch_box boxes.now b.low b.high)) branches.now → IsNotDamaged result }
    ensures names { NamesTested result }
    ensures fault { CountsTreeFault result (P.faults pages.old) (P.faults pages.new) }
{
    if branches.len() <= MOST_BRANCHES {
        put_inner(pages, n, branches);
        return Ok(Grown::Whole);
    }
    let (low, high) = branches.split_at(LEAST_BRANCHES);
    let Some(left) = inner_part(low, n, boxes) else {
        return Err(damaged(n, Rule::Box));
    };
    let Some(mut right) = inner_part(high, n, boxes) else {
        return Err(damaged(n, Rule::Box));
    };
    right.page = pages.take_page();
    put_inner(pages, n, low);
    put_inner(pages, right.page, high);
    Ok(Grown::Split(left, right))
}

/// Takes a page, and makes it the inner node of the branches of two nodes. It gives the page.
pub(crate) fn join_parts<P: Pages, S: Summary, F: Boxes<S>>(
    pages: &mut P,
    left: &Part<S>,
    right: &Part<S>,
    boxes: &F,
) -> u32
    requires open { IsTrue (P.is_open pages.old) }
    requires free { 1 ≤ length (P.free pages.old) }
    requires put { length (P.put_pages pages.old) < CHANGE_LIMIT }
    requires left { F.is_made boxes.now left.now.summary }
    requires right { F.is_made boxes.now right.now.summary }
    ensures written { IsJoined result (Inner (branch_of (F.keys_of boxes.now) left.now ∷ branch_of (F.keys_of boxes.now) right.now ∷ []))
        (P.page_at pages.old) (P.page_at pages.new) (P.free pages.old) (P.free pages.new) }
    ensures pages { PagesGrow P.is_known P.has P.in_pool P.free P.is_open P.put_pages P.calm 1 1 pages.old pages.new }
    ensures faults { P.faults pages.new ≡ P.faults pages.old }
{
    let n = pages.take_page();
    put_inner(pages, n, &[branch_of(left, boxes), branch_of(right, boxes)]);
    n
}
