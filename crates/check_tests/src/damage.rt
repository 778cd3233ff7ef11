//! Trees with one page edited, and the page and the rule that are named.
ghost use Rattle.std.specs.Prelude.{◌≡◌, ◌≤◌};
ghost use Rattle.page_laws.specs.PlainPages.{in_pool};

use crate::trees::{
    BRANCHES, ID_PAGES, ID_ROOT, PAGES, PLANE, ROOT, checked, entries, id_tree, lay, lay_inner,
    lay_leaf, small_tree,
};
use box_corner::{CurveBoxes, IdBoxes};
use bptree_node::Entry;
use page_laws::{PAGE_SIZE, PageError, Pages, PlainPages, Root, Rule, TreeError};
use std::alloc::Global;
use std::test::Fail;

/// Edits one byte of a page.
fn set_byte(pages: &mut PlainPages, n: u32, place: usize, byte: u8) -> Result<(), PageError>
    ensures { in_pool pages.new ≡ in_pool pages.old }
{
    if !pages.is_live(n) {
        return Ok(());
    }
    let mut page = [0; PAGE_SIZE];
    pages.get(n, &mut page)?;
    if let Some(at) = page.get_mut(place) {
        *at = byte;
    }
    lay(pages, n, &page);
    Ok(())
}

/// What a check says of the small tree once a byte of a page was edited.
fn check_with_byte(alloc: Global, n: u32, place: usize, byte: u8) -> Result<Vec<Entry>, TreeError> {
    let mut pages = small_tree(alloc)?;
    set_byte(&mut pages, n, place, byte)?;
    checked(
        alloc,
        &mut pages,
        PAGES,
        ROOT,
        &CurveBoxes { curve: &PLANE },
    )
}

// The last entry of a leaf is at byte 256 with 15 entries, and at byte 272 with 16.
#[test]
fn an_edited_leaf_is_named(rt: HostRuntime) -> Result<(), Fail> {
    for (n, place, byte, rule) in [
        // Another kind of node, or none.
        (1, 0, 2, Rule::Node),
        (2, 0, 0, Rule::Node),
        // No entries, more than a leaf has room for, and one fewer than there are.
        (1, 1, 0, Rule::Node),
        (1, 1, 31, Rule::Node),
        (2, 1, 15, Rule::Node),
        (1, 2, 1, Rule::Node),
        (1, 511, 1, Rule::Node),
        // The first two entries have ids in falling order, or are alike.
        (1, 43, 2, Rule::Order),
        (1, 43, 1, Rule::Order),
        // The key of the last entry is below the one before, or is no key of the plane.
        (2, 279, 13, Rule::Order),
        (2, 279, 16, Rule::Key),
    ] {
        let named = check_with_byte(rt.alloc(), n, place, byte).err();
        assert_eq!(rt; named, Some(TreeError::Damaged { page: n, rule }));
    }
    Ok(())
}

// The second branch is at byte 64. A branch has its key in bytes 0 to 7, its id in 8 to 11, its child in
// 12 to 15, and the corners in 16 to 23 and 24 to 31.
#[test]
fn an_edited_root_is_named(rt: HostRuntime) -> Result<(), Fail> {
    for (place, byte, rule) in [
        (0, 1, Rule::Node),
        (1, 1, Rule::Node),
        (1, 15, Rule::Node),
        // A child outside of the pool, behind it, free, the root itself, and the first leaf again.
        (47, 0, Rule::Page),
        (47, 5, Rule::Page),
        (79, 4, Rule::Page),
        (79, 3, Rule::Page),
        (79, 1, Rule::Page),
        // Another key or id than the first entry's.
        (39, 1, Rule::Order),
        (43, 1, Rule::Order),
        (71, 6, Rule::Order),
        (75, 14, Rule::Order),
        // A wider box, narrower ones, of which one begins at the least key, and corners of no box.
        (87, 0, Rule::Box),
        (63, 8, Rule::Box),
        (63, 6, Rule::Box),
        (87, 7, Rule::Box),
        (95, 1, Rule::Box),
    ] {
        let named = check_with_byte(rt.alloc(), 3, place, byte).err();
        assert_eq!(rt; named, Some(TreeError::Damaged { page: 3, rule }));
    }
    Ok(())
}

// Byte 267 is the last of the id of the first leaf's last entry, which has the key 7. The next leaf
// begins with the key 7 and the id 15.
#[test]
fn leaves_that_overlap_are_named_by_the_root(rt: HostRuntime) -> Result<(), Fail> {
    for id in [15, 16, 255] {
        let named = check_with_byte(rt.alloc(), 1, 267, id).err();
        assert_eq!(rt;
            named,
            Some(TreeError::Damaged {
                page: 3,
                rule: Rule::Order
            })
        );
    }
    Ok(())
}

/// What a check says of the small tree once a leaf has other entries.
fn check_with_leaf(alloc: Global, n: u32, entries: &[Entry]) -> Result<Vec<Entry>, TreeError> {
    let mut pages = small_tree(alloc)?;
    lay_leaf(&mut pages, n, entries);
    checked(
        alloc,
        &mut pages,
        PAGES,
        ROOT,
        &CurveBoxes { curve: &PLANE },
    )
}

#[test]
fn leaves_with_other_entries_are_named(rt: HostRuntime) -> Result<(), Fail> {
    let all = entries();
    for (n, from, to, page, rule) in [
        // Fourteen entries are too few.
        (1, 0, 14, 1, Rule::Fill),
        (2, 15, 29, 2, Rule::Fill),
        // The root's branches lead to other entries.
        (1, 1, 16, 3, Rule::Order),
        (2, 14, 30, 3, Rule::Order),
        // The first leaf's last entry is the second one's first.
        (1, 0, 16, 3, Rule::Order),
    ] {
        let named = check_with_leaf(rt.alloc(), n, all.get(from..to).unwrap_or(&[])).err();
        assert_eq!(rt; named, Some(TreeError::Damaged { page, rule }));
    }
    Ok(())
}

#[test]
fn nodes_of_another_level_are_named(rt: HostRuntime) -> Result<(), Fail> {
    let mut pages = small_tree(rt.alloc())?;
    lay_inner(&mut pages, 2, &BRANCHES);
    let named = checked(
        rt.alloc(),
        &mut pages,
        PAGES,
        ROOT,
        &CurveBoxes { curve: &PLANE },
    )
    .err();
    assert_eq!(rt;
        named,
        Some(TreeError::Damaged {
            page: 2,
            rule: Rule::Node
        })
    );
    lay_leaf(&mut pages, 3, &entries()[..15]);
    let named = checked(
        rt.alloc(),
        &mut pages,
        PAGES,
        ROOT,
        &CurveBoxes { curve: &PLANE },
    )
    .err();
    assert_eq!(rt;
        named,
        Some(TreeError::Damaged {
            page: 3,
            rule: Rule::Node
        })
    );
    Ok(())
}

/// What a check says of the small tree, begun at another root.
fn check_from(alloc: Global, page: u32, height: u8) -> Result<Vec<Entry>, TreeError>
    requires some { 1 ≤ height }
    requires limit { height ≤ 5 }
{
    let mut pages = small_tree(alloc)?;
    checked(
        alloc,
        &mut pages,
        PAGES,
        Root { page, height },
        &CurveBoxes { curve: &PLANE },
    )
}

#[test]
fn other_roots_are_named(rt: HostRuntime) -> Result<(), Fail> {
    for (root, height, page, rule) in [
        // Outside of the pool, behind it, and free.
        (0, 2, 1, Rule::Page),
        (5, 2, 1, Rule::Page),
        (4, 2, 1, Rule::Page),
        // An inner node where leaves are, and leaves where inner nodes are.
        (3, 1, 3, Rule::Node),
        (1, 2, 1, Rule::Node),
        (3, 3, 1, Rule::Node),
        (3, 5, 1, Rule::Node),
    ] {
        let named = check_from(rt.alloc(), root, height).err();
        assert_eq!(rt; named, Some(TreeError::Damaged { page, rule }));
    }
    Ok(())
}

/// What a check says of the id tree once a byte of a page was edited.
fn check_ids_with_byte(
    alloc: Global,
    n: u32,
    place: usize,
    byte: u8,
) -> Result<Vec<Entry>, TreeError> {
    let mut pages = id_tree(alloc, 7)?;
    set_byte(&mut pages, n, place, byte)?;
    checked(alloc, &mut pages, ID_PAGES, ID_ROOT, &IdBoxes)
}

#[test]
fn an_edited_id_tree_is_named(rt: HostRuntime) -> Result<(), Fail> {
    for (n, place, byte, rule) in [
        // A key that isn't the id, though the keys still rise.
        (14, 263, 255, Rule::Key),
        // Corners that aren't 0, of an inner node and of the root.
        (16, 55, 1, Rule::Box),
        (17, 63, 1, Rule::Box),
        (18, 87, 1, Rule::Box),
        // The root's second branch leads to the id 120.
        (18, 75, 119, Rule::Order),
        // A leaf of the other node is reached again.
        (17, 47, 7, Rule::Page),
    ] {
        let named = check_ids_with_byte(rt.alloc(), n, place, byte).err();
        assert_eq!(rt; named, Some(TreeError::Damaged { page: n, rule }));
    }
    Ok(())
}
