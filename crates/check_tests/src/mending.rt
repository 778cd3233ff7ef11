//! Neighbours that are joined and evened.
ghost use Rattle.std.specs.Prelude.{◌≤◌, ◌<◌, length};

use crate::trees::{BRANCHES, PLANE, entries, live_pages};
use box_corner::CurveBoxes;
use bptree_edit::{Branches, Entries, branch_of, branches_of, entries_of};
use bptree_mend::{Mended, mend_inners, mend_leaves};
use bptree_node::{Branch, Entry};
use page_laws::{PAGE_SIZE, Pages, PlainPages, Rule, TreeError};
use std::alloc::Global;
use std::array;
use std::test::Fail;

/// What the neighbours on the pages 1 and 2 became, as the branches that lead to them.
#[derive(Clone, Copy, Debug, PartialEq, Eq)]
enum Outcome {
    Joined(Branch),
    Evened(Branch, Branch),
}

/// Mends the leaves on the pages 1 and 2. It is a fault if these aren't live.
fn mend(pages: &mut PlainPages, entries: &[Entry], own: usize) -> Result<Outcome, TreeError>
    requires enough { 15 ≤ length entries.now }
    requires few { length entries.now < 45 }
    requires own { (1 ≤ own) × (own ≤ length entries.now) }
{
    let boxes = CurveBoxes { curve: &PLANE };
    if !pages.is_live(1) || !pages.is_live(2) {
        return Err(TreeError::Fault);
    }
    match mend_leaves(pages, 1, 2, entries, own, &boxes)? {
        Mended::Joined(part) => Ok(Outcome::Joined(branch_of(&part, &boxes))),
        Mended::Evened(low, high) => Ok(Outcome::Evened(
            branch_of(&low, &boxes),
            branch_of(&high, &boxes),
        )),
    }
}

/// Mends the inner nodes on the pages 1 and 2. It is a fault if these aren't live.
fn mend_above(pages: &mut PlainPages, branches: &[Branch], own: usize) -> Result<Outcome, TreeError>
    requires enough { 7 ≤ length branches.now }
    requires few { length branches.now < 21 }
    requires own { (1 ≤ own) × (own ≤ length branches.now) }
{
    let boxes = CurveBoxes { curve: &PLANE };
    if !pages.is_live(1) || !pages.is_live(2) {
        return Err(TreeError::Fault);
    }
    match mend_inners(pages, 1, 2, branches, own, &boxes)? {
        Mended::Joined(part) => Ok(Outcome::Joined(branch_of(&part, &boxes))),
        Mended::Evened(low, high) => Ok(Outcome::Evened(
            branch_of(&low, &boxes),
            branch_of(&high, &boxes),
        )),
    }
}

/// The entries of a leaf. It is a fault if its page isn't live.
fn leaf_at(pages: &mut PlainPages, n: u32) -> Result<Entries, TreeError> {
    if !pages.is_live(n) {
        return Err(TreeError::Fault);
    }
    let mut page = [0; PAGE_SIZE];
    pages.get(n, &mut page)?;
    entries_of(&page, n)
}

/// The branches of an inner node. It is a fault if its page isn't live.
fn inner_at(pages: &mut PlainPages, n: u32) -> Result<Branches, TreeError> {
    if !pages.is_live(n) {
        return Err(TreeError::Fault);
    }
    let mut page = [0; PAGE_SIZE];
    pages.get(n, &mut page)?;
    branches_of(&page, n)
}

/// Mends leaves that have so many of the entries. It is a fault if these are too few or too many.
fn mend_first(
    pages: &mut PlainPages,
    all: &[Entry],
    count: usize,
    own: usize,
) -> Result<Outcome, TreeError> {
    if count < 15 || count > 44 || count > all.len() || own == 0 || own > count {
        return Err(TreeError::Fault);
    }
    mend(pages, &all[..count], own)
}

// The keys are 0 to 14; those of the cells (2, 3) and (3, 2) are among them.
#[test]
fn thirty_entries_are_joined(rt: HostRuntime) -> Result<(), Fail> {
    let mut pages = live_pages(rt.alloc(), 4)?;
    let outcome = mend_first(&mut pages, &entries(), 30, 14)?;
    let whole = Branch {
        key: 0,
        id: 0,
        child: 1,
        low: 0,
        high: 15,
    };
    assert_eq!(rt; outcome, Outcome::Joined(whole));
    assert!(rt; leaf_at(&mut pages, 1)?.iter().eq(entries().iter().take(30)));
    assert!(rt; !pages.is_live(2) && pages.is_live(3));
    Ok(())
}

#[test]
fn thirty_one_entries_are_evened(rt: HostRuntime) -> Result<(), Fail> {
    let mut pages = live_pages(rt.alloc(), 4)?;
    let all = entries();
    let outcome = mend(&mut pages, &all, 1)?;
    let [low, high] = BRANCHES;
    assert_eq!(rt; outcome, Outcome::Evened(low, high));
    assert!(rt; leaf_at(&mut pages, 1)?.iter().eq(all.iter().take(15)));
    assert!(rt; leaf_at(&mut pages, 2)?.iter().eq(all.iter().skip(15)));
    Ok(())
}

/// Branches with two of each key, each with one cell under it.
fn branches() -> [Branch; 20] {
    array::from_fn(|i| Branch {
        key: i as u64 / 2,
        id: i as u32,
        child: 3,
        low: i as u64 / 2,
        high: i as u64 / 2,
    })
}

// The keys are 0 to 6: the cells (0, 3) and (1, 2) are among them.
#[test]
fn fourteen_branches_are_joined(rt: HostRuntime) -> Result<(), Fail> {
    let mut pages = live_pages(rt.alloc(), 4)?;
    let all = branches();
    let outcome = mend_above(&mut pages, &all[..14], 6)?;
    let whole = Branch {
        key: 0,
        id: 0,
        child: 1,
        low: 0,
        high: 7,
    };
    assert_eq!(rt; outcome, Outcome::Joined(whole));
    assert!(rt; inner_at(&mut pages, 1)?.iter().eq(all.iter().take(14)));
    assert!(rt; !pages.is_live(2) && pages.is_live(3));
    Ok(())
}

// The keys are 0 to 4, with the cells (1, 1) and (0, 2), and 5 to 9, with (0, 3), (1, 2) and (2, 0).
#[test]
fn twenty_branches_are_evened(rt: HostRuntime) -> Result<(), Fail> {
    let mut pages = live_pages(rt.alloc(), 4)?;
    let all = branches();
    let outcome = mend_above(&mut pages, &all, 14)?;
    let low = Branch {
        key: 0,
        id: 0,
        child: 1,
        low: 0,
        high: 6,
    };
    let high = Branch {
        key: 5,
        id: 10,
        child: 2,
        low: 0,
        high: 13,
    };
    assert_eq!(rt; outcome, Outcome::Evened(low, high));
    assert!(rt; inner_at(&mut pages, 1)?.iter().eq(all.iter().take(10)));
    assert!(rt; inner_at(&mut pages, 2)?.iter().eq(all.iter().skip(10)));
    Ok(())
}

/// What is said of so many entries, of which one has a key that is none of the plane.
fn mend_with_stray_key(
    alloc: Global,
    count: usize,
    own: usize,
    place: usize,
) -> Result<Outcome, TreeError> {
    let mut pages = live_pages(alloc, 4)?;
    let mut all = entries();
    if let Some(entry) = all.get_mut(place) {
        entry.key = 16;
    }
    mend_first(&mut pages, &all, count, own)
}

#[test]
fn a_stray_key_is_named_by_its_page(rt: HostRuntime) -> Result<(), Fail> {
    for (count, own, place, page) in [
        (30, 14, 13, 1),
        (30, 14, 14, 2),
        (31, 17, 16, 1),
        (31, 1, 1, 2),
    ] {
        let named = mend_with_stray_key(rt.alloc(), count, own, place).err();
        assert_eq!(rt;
            named,
            Some(TreeError::Damaged {
                page,
                rule: Rule::Key
            })
        );
    }
    Ok(())
}

/// What is said of so many branches, of which one has corners of no box: (1, 0) and (0, 1).
fn mend_without_box(
    alloc: Global,
    count: usize,
    own: usize,
    place: usize,
) -> Result<Outcome, TreeError> {
    if count < 7 || count > 20 || own == 0 || own > count {
        return Err(TreeError::Fault);
    }
    let mut pages = live_pages(alloc, 4)?;
    let mut all = branches();
    if let Some(branch) = all.get_mut(place) {
        branch.low = 2;
        branch.high = 1;
    }
    mend_above(&mut pages, &all[..count], own)
}

#[test]
fn corners_of_no_box_are_named_by_their_page(rt: HostRuntime) -> Result<(), Fail> {
    for (count, own, place, page) in [(14, 6, 5, 1), (14, 6, 6, 2), (15, 9, 8, 1), (20, 6, 6, 2)] {
        let named = mend_without_box(rt.alloc(), count, own, place).err();
        assert_eq!(rt;
            named,
            Some(TreeError::Damaged {
                page,
                rule: Rule::Box
            })
        );
    }
    Ok(())
}
