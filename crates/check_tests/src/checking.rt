//! Sound trees, and what a check gathers of them.
use crate::trees::{
    ID_PAGES, ID_ROOT, PAGES, PLANE, ROOT, check, checked, entries, id_tree, lay_leaf, no_pages,
    small_tree,
};
use box_corner::{CurveBoxes, IdBoxes};
use bptree_node::Entry;
use page_laws::{Root, Rule, TreeError};
use std::test::Fail;
use z_curve::ZCurve;

#[test]
fn a_sound_tree_gives_its_entries(rt: HostRuntime) -> Result<(), Fail> {
    let mut pages = small_tree(rt.alloc())?;
    let found = checked(
        rt.alloc(),
        &mut pages,
        PAGES,
        ROOT,
        &CurveBoxes { curve: &PLANE },
    )?;
    assert!(rt; found.as_slice() == entries().as_slice());
    Ok(())
}

#[test]
fn the_empty_tree_is_sound(rt: HostRuntime) -> Result<(), Fail> {
    let mut pages = small_tree(rt.alloc())?;
    let empty = Root { page: 0, height: 0 };
    let found = checked(
        rt.alloc(),
        &mut pages,
        PAGES,
        empty,
        &CurveBoxes { curve: &PLANE },
    )?;
    assert!(rt; found.is_empty());
    Ok(())
}

#[test]
fn a_second_tree_has_pages_of_its_own(rt: HostRuntime) -> Result<(), Fail> {
    let mut pages = small_tree(rt.alloc())?;
    let mut used = no_pages(rt.alloc(), &pages, PAGES)?;
    let mut found = Vec::new(rt.alloc());
    let boxes = CurveBoxes { curve: &PLANE };
    check(
        &mut pages,
        Root { page: 2, height: 1 },
        &boxes,
        &mut used,
        &mut found,
    )?;
    assert!(rt; used.contains(2) && !used.contains(1) && !used.contains(3));
    let again = check(
        &mut pages,
        Root { page: 2, height: 1 },
        &boxes,
        &mut used,
        &mut found,
    );
    assert_eq!(rt;
        again,
        Err(TreeError::Damaged {
            page: 1,
            rule: Rule::Page
        })
    );
    Ok(())
}

#[test]
fn another_trees_leaf_is_named_by_the_parent(rt: HostRuntime) -> Result<(), Fail> {
    let mut pages = small_tree(rt.alloc())?;
    let mut used = no_pages(rt.alloc(), &pages, PAGES)?;
    let mut found = Vec::new(rt.alloc());
    let boxes = CurveBoxes { curve: &PLANE };
    check(
        &mut pages,
        Root { page: 2, height: 1 },
        &boxes,
        &mut used,
        &mut found,
    )?;
    let whole = check(&mut pages, ROOT, &boxes, &mut used, &mut found);
    assert_eq!(rt;
        whole,
        Err(TreeError::Damaged {
            page: 3,
            rule: Rule::Page
        })
    );
    Ok(())
}

#[test]
fn inner_nodes_have_seven_branches(rt: HostRuntime) -> Result<(), Fail> {
    let mut pages = id_tree(rt.alloc(), 7)?;
    let found = checked(rt.alloc(), &mut pages, ID_PAGES, ID_ROOT, &IdBoxes)?;
    assert!(rt; found.iter().map(|entry| entry.id).eq(15..225));
    let mut pages = id_tree(rt.alloc(), 6)?;
    let named = checked(rt.alloc(), &mut pages, ID_PAGES, ID_ROOT, &IdBoxes).err();
    assert_eq!(rt;
        named,
        Some(TreeError::Damaged {
            page: 16,
            rule: Rule::Fill
        })
    );
    Ok(())
}

// The cells (0, 255), (10, 245), (255, 0), (200, 255) and (7, 256).
#[test]
fn five_entries_in_the_order_of_their_keys(rt: HostRuntime) -> Result<(), Fail> {
    let curve = ZCurve { n: 2, b: 9 };
    let mut five = [(21845, 1), (21913, 3), (43690, 5), (62933, 4), (65578, 2)].map(|(
        key,
        id,
    )| Entry { key, id, slot: 0 });
    let root = Root { page: 1, height: 1 };
    let mut pages = small_tree(rt.alloc())?;
    lay_leaf(&mut pages, 1, &five);
    let found = checked(
        rt.alloc(),
        &mut pages,
        PAGES,
        root,
        &CurveBoxes { curve: &curve },
    )?;
    assert!(rt; found.iter().map(|entry| entry.id).eq([1, 3, 5, 4, 2]));
    five.swap(0, 1);
    lay_leaf(&mut pages, 1, &five);
    let named = checked(
        rt.alloc(),
        &mut pages,
        PAGES,
        root,
        &CurveBoxes { curve: &curve },
    )
    .err();
    assert_eq!(rt;
        named,
        Some(TreeError::Damaged {
            page: 1,
            rule: Rule::Order
        })
    );
    Ok(())
}
