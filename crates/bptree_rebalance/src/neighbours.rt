//! A leaf and its neighbour under the same inner node.
ghost use Rattle.std.specs.Prelude.{◌≡◌, ◌+◌, ◌<◌, ◌≤◌, [], ◌∷◌, ◌++◌, List, IsTrue, IsSome, Some, Ok, Err, IfOk, MatchResult, length};
ghost use Rattle.std.specs.List.{AllByRecursion, replace_range};
ghost use Rattle.page_laws.specs.Calls.{PagesStay};
ghost use Rattle.page_laws.specs.Errors.{CountsTreeFault, IsNotDamaged};
ghost use Rattle.page_laws.specs.Pages.{is_live};
ghost use Rattle.page_laws.specs.declared.pages.TheConstants.{CHANGE_LIMIT};
ghost use Rattle.bptree_node.specs.declared.layout.TheConstants.{LEAST_ENTRIES, MOST_BRANCHES, MOST_ENTRIES};
ghost use Rattle.bptree_node.specs.declared.rows.Entry.{Entry};
ghost use Rattle.bptree_node.specs.Nodes.{Leaf, node_in};
ghost use Rattle.bptree_edit.specs.Parts.{IsLeafPart};
ghost use Rattle.bptree_edit.specs.Steps.{NamesTested};
ghost use Rattle.bptree_mend.specs.Mending.{PagesShrink, AreMade};
ghost use Rattle.bptree_rebalance.specs.Settling.{child_at, branches_of_mended, HasMended};

use bptree_edit::{Branches, Entries, branch_of, damaged, entries_of};
use bptree_mend::{Mended, mend_leaves};
use bptree_node::{Boxes, Branch, Entry, Summary};
use page_laws::{PAGE_SIZE, Pages, Rule, TreeError};

/// The entries of the leaf that page `child` is; page `n` is its parent.
pub(crate) fn read_leaf<P: Pages>(pages: &mut P, n: u32, child: u32) -> Result<Entries, TreeError>
    ensures leaf { IsTrue (P.is_known pages.old) → IfOk result (λ entries. node_in (P.page_at pages.old child) ≡ Some (Leaf entries.items)) }
    ensures count { IfOk result (λ entries. (1 ≤ length entries.items) × (length entries.items ≤ MOST_ENTRIES)) }
    ensures stays { PagesStay P.is_known P.has P.in_pool P.page_at P.free P.is_open P.put_pages P.calm pages.old pages.new }
    ensures sound { IsTrue (P.is_known pages.old) → IsTrue (is_live (P.in_pool pages.old) (P.free pages.old) child)
        → (entries : List Entry) → node_in (P.page_at pages.old child) ≡ Some (Leaf entries) → IsNotDamaged result }
    ensures names { NamesTested result }
    ensures fault { CountsTreeFault result (P.faults pages.old) (P.faults pages.new) }
{
    if !pages.is_live(child) {
        return Err(damaged(n, Rule::Page));
    }
    let mut page = [0; PAGE_SIZE];
    pages.get(child, &mut page)?;
    entries_of(&page, child)
}

/// The entries of two leaves, one behind the other.
pub(crate) fn joined(mut front: Entries, back: &[Entry]) -> Entries
    requires { length front.items + length back.now ≤ 44 }
    ensures { result.items ≡ front.items ++ back.now }
{
    if front.try_extend_from_slice(back).is_err() {
        unreachable!();
    }
    front
}

/// Joins or evens out the leaves under two branches, at `left` and behind it, whose entries are
/// `rows`, the first `own` of them those of the first leaf. Their branches give way to those of what
/// the leaves became. Page `n` is the node of the branches.
pub(crate) fn mend_pair<P: Pages, S: Summary, F: Boxes<S>>(
    pages: &mut P,
    n: u32,
    branches: &mut Branches,
    left: usize,
    rows: &[Entry],
    own: usize,
    boxes: &F,
) -> Result<(), TreeError>
    requires open { IsTrue (P.is_open pages.old) }
    requires put { length (P.put_pages pages.old) + 2 ≤ CHANGE_LIMIT }
    requires place { left + 1 < length branches.old.items }
    requires full { length branches.old.items ≤ MOST_BRANCHES }
    requires some { 1 ≤ length rows.now }
    requires few { length rows.now < MOST_ENTRIES + LEAST_ENTRIES }
    requires own { (1 ≤ own) × (own ≤ length rows.now) }
    ensures mends { IfOk result (λ _. HasMended Leaf (IsLeafPart S.joined (F.entry_box boxes.now)) LEAST_ENTRIES MOST_ENTRIES (F.keys_of boxes.now) left branches.old.items branches.new.items rows.now
        (P.page_at pages.old) (P.page_at pages.new) (P.free pages.old) (P.free pages.new)) }
    ensures count { (length branches.old.items ≤ length branches.new.items + 1) × (length branches.new.items ≤ length branches.old.items) }
    ensures pages { PagesShrink P.is_known P.has P.in_pool P.free P.is_open P.put_pages P.calm 1 2 pages.old pages.new }
    ensures sound { IsTrue (is_live (P.in_pool pages.old) (P.free pages.old) (child_at branches.old.items left))
        → IsTrue (is_live (P.in_pool pages.old) (P.free pages.old) (child_at branches.old.items (left + 1)))
        → AllByRecursion (λ (e : Entry). IsSome (F.entry_box boxes.now e)) rows.now → IsNotDamaged result }
    ensures names { NamesTested result }
    ensures fault { CountsTreeFault result (P.faults pages.old) (P.faults pages.new) }
{
    let first = branches[left].child;
    let second = branches[left + 1].child;
    if !pages.is_live(first) || !pages.is_live(second) {
        return Err(damaged(n, Rule::Page));
    }
    let mended = mend_leaves(pages, first, second, rows, own, boxes)?;
    replace_pair(branches, left, &mended, boxes);
    Ok(())
}

/// Puts the branches of what two neighbours became into the place of theirs, at `left` and behind it.
fn replace_pair<S: Summary, F: Boxes<S>>(
    branches: &mut Branches,
    left: usize,
    mended: &Mended<S>,
    boxes: &F,
)
    requires place { left + 1 < length branches.old.items }
    requires few { length branches.old.items ≤ MOST_BRANCHES }
    requires made { AreMade (F.is_made boxes.now) mended.now }
    ensures rows { branches.new.items ≡ replace_range branches.old.items left (left + 2) (branches_of_mended (F.keys_of boxes.now) mended.now) }
    ensures count { (length branches.old.items ≤ length branches.new.items + 1) × (length branches.new.items ≤ length branches.old.items) }
{
    match mended {
        Mended::Joined(part) => put_one(branches, left, branch_of(part, boxes)),
        Mended::Evened(one, two) => put_two(
            branches,
            left,
            branch_of(one, boxes),
            branch_of(two, boxes),
        ),
    }
}

/// Puts a branch into the place of the one at `left` and the one behind it.
fn put_one(branches: &mut Branches, left: usize, branch: Branch)
    requires place { left + 1 < length branches.old.items }
    requires few { length branches.old.items ≤ MOST_BRANCHES }
    ensures rows { branches.new.items ≡ replace_range branches.old.items left (left + 2) (branch ∷ []) }
    ensures count { length branches.new.items + 1 ≡ length branches.old.items }
{
    branches.remove(left + 1);
    branches[left] = branch;
}

/// Puts two branches into the places of the one at `left` and the one behind it.
fn put_two(branches: &mut Branches, left: usize, first: Branch, second: Branch)
    requires place { left + 1 < length branches.old.items }
    requires few { length branches.old.items ≤ MOST_BRANCHES }
    ensures rows { branches.new.items ≡ replace_range branches.old.items left (left + 2) (first ∷ second ∷ []) }
    ensures count { length branches.new.items ≡ length branches.old.items }
{
    branches[left] = first;
    branches[left + 1] = second;
}
