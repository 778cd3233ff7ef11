//! Trees in memory.
ghost use Rattle.std.specs.Prelude.{◌≤◌, length};

use bptree_insert::insert;
use bptree_node::{Boxes, Entry, NoBox, read_node};
use page_laws::{PAGE_SIZE, Pages, PlainPages, Root, TreeError};
use std::test::Fail;

/// Nothing is kept of entries.
struct NoBoxes;

impl Boxes<NoBox> for NoBoxes {
    ghost use Rattle.std.specs.Prelude.{Some};
    ghost use Rattle.bptree_insert.specs.NoBoxLaws.{kept_box, no_box_laws};

    ghost entry_box = { λ _ _. Some kept_box };

    ghost branch_box = { λ _ _ _. Some kept_box };

    ghost keys_of = { λ _ _. (0, 0) };

    ghost is_made = { λ _ _. Unit };

    ghost width = { λ _. 0 };

    ghost box_laws = { λ _. no_box_laws };

    fn of_entry(&self, _: &Entry) -> Option<NoBox> {
        Some(NoBox)
    }

    fn of_branch(&self, _: u64, _: u64) -> Option<NoBox> {
        Some(NoBox)
    }

    fn as_keys(&self, _: &NoBox) -> (u64, u64) {
        (0, 0)
    }
}

/// Adds the ids under a page of a level, from left to right. Leaves are at 1.
fn add_ids(pages: &mut PlainPages, n: u32, level: u8, ids: &mut Vec<u32>) -> Result<(), Fail> {
    if level == 0 || !pages.is_live(n) {
        return Ok(());
    }
    let mut page = [0; PAGE_SIZE];
    pages.get(n, &mut page)?;
    let Ok(node) = read_node(&page) else {
        return Ok(());
    };
    for i in 0..node.count() {
        if node.is_leaf() {
            ids.push(node.entry(i).id)?;
        } else {
            add_ids(pages, node.branch(i).child, level - 1, ids)?;
        }
    }
    Ok(())
}

/// The root of a tree of at most forty entries of one key, inserted in turn. Their ids begin with one
/// and go on by a step, modulo 40; an id that was inserted before is left out.
fn grow(pages: &mut PlainPages, count: u32, first: u32, step: u32) -> Result<Root, TreeError>
    requires { 300 ≤ length pages.old.free }
{
    let mut seen = [false; 40];
    let mut root = Root { page: 0, height: 0 };
    for i in 0..count.min(40) {
        let id = (first % 40 + step % 40 * i) % 40;
        if seen[id as usize] {
            continue;
        }
        let e = Entry {
            key: 7,
            id,
            slot: i,
        };
        root = insert(pages, root, e, &NoBoxes)?;
        seen[id as usize] = true;
    }
    Ok(root)
}

#[test]
fn entries_of_one_key_stand_in_the_order_of_their_ids(rt: HostRuntime) -> Result<(), Fail> {
    for (first, step) in [(0, 1), (39, 39), (0, 17)] {
        let mut pages = PlainPages::new(rt.alloc(), 400, 10)?;
        let root = grow(&mut pages, 40, first, step)?;
        let mut ids = Vec::new(rt.alloc());
        add_ids(&mut pages, root.page, root.height, &mut ids)?;
        assert!(rt; ids.iter().copied().eq(0..40));
    }
    Ok(())
}

#[test]
fn the_root_is_split_by_the_thirty_first_entry(rt: HostRuntime) -> Result<(), Fail> {
    for (count, height) in [(1, 1), (30, 1), (31, 2)] {
        let mut pages = PlainPages::new(rt.alloc(), 400, 10)?;
        let root = grow(&mut pages, count, 0, 1)?;
        assert_eq!(rt; root.height, height);
    }
    Ok(())
}
