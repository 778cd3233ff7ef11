//! Trees that grow by one entry after the other.
ghost use Rattle.std.specs.Prelude.{◌≡◌, ◌-◌, ◌≤◌, ◌<◌, IfOk, length};
ghost use Rattle.std.specs.List.{range_with_len};
ghost use Rattle.page_laws.specs.PlainPages.{in_pool, zeros};
ghost use Rattle.bptree_node.specs.declared.layout.TheConstants.{HEIGHT_LIMIT};

use crate::trees::{PLANE, checked};
use box_corner::CurveBoxes;
use bptree_insert::insert;
use bptree_node::{Boxes, Entry, Summary};
use page_laws::{PageError, PlainPages, Root, TreeError};
use std::alloc::Global;
use std::test::Fail;

/// How many pages there are, all but the first of them in the pool.
const PAGES: u32 = 1500;

/// The id that follows another of the 240.
fn next_id(id: u32, factor: u32, step: u32) -> u32
    requires { id < 240 }
    ensures { result < 240 }
{
    (factor % 240 * id + step % 240) % 240
}

/// The root of a tree of entries with the ids below 240, inserted in turn. Fifteen ids have one key, from
/// 0 to 15. An id is followed by its product with a factor, with a step added, modulo 240; an
/// id that was inserted before is left out.
fn grow<S: Summary, F: Boxes<S>>(
    pages: &mut PlainPages,
    boxes: &F,
    first: u32,
    factor: u32,
    step: u32,
) -> Result<Root, TreeError>
    requires { 1499 ≤ length pages.old.free }
    ensures pool { in_pool pages.new ≡ in_pool pages.old }
    ensures height { IfOk result (λ root. root.height ≤ HEIGHT_LIMIT) }
    ensures empty { IfOk result (λ root. root.height ≡ 0 → root.page ≡ 0) }
{
    let mut seen = [false; 240];
    let mut root = Root { page: 0, height: 0 };
    let mut next = first % 240;
    for i in 0..240 {
        let id = next;
        next = next_id(id, factor, step);
        let e = Entry {
            key: u64::from(id / 15),
            id,
            slot: i,
        };
        if seen[id as usize] || boxes.of_entry(&e).is_none() {
            continue;
        }
        root = insert(pages, root, e, boxes)?;
        seen[id as usize] = true;
    }
    Ok(root)
}

/// So many pages, of which all but the first are of the pool and free.
fn free_pages(alloc: Global, count: u32) -> Result<PlainPages, PageError>
    ensures free { IfOk result (λ plain. plain.free ≡ range_with_len 1 (count - 1)) }
    ensures pool { IfOk result (λ plain. in_pool plain ≡ in_pool (zeros count 1)) }
{
    PlainPages::new(alloc, count, 1)
}

/// The entries of a tree that was grown and is sound.
fn grown(alloc: Global, first: u32, factor: u32, step: u32) -> Result<Vec<Entry>, TreeError> {
    let boxes = CurveBoxes { curve: &PLANE };
    let mut pages = free_pages(alloc, PAGES)?;
    let root = grow(&mut pages, &boxes, first, factor, step)?;
    checked(alloc, &mut pages, PAGES, root, &boxes)
}

#[test]
fn a_tree_grown_in_any_order_is_sound(rt: HostRuntime) -> Result<(), Fail> {
    for (first, factor, step) in [
        (0, 1, 1),
        (239, 1, 239),
        (0, 1, 77),
        (5, 61, 7),
        (100, 181, 77),
    ] {
        let found = grown(rt.alloc(), first, factor, step)?;
        assert!(rt; found.iter().map(|entry| entry.id).eq(0..240));
    }
    Ok(())
}

// A leaf is split at 15 or 16 entries, so there are fifteen leaves at least, and a node has room for
// fourteen.
#[test]
fn entries_in_order_make_three_levels(rt: HostRuntime) -> Result<(), Fail> {
    let mut pages = free_pages(rt.alloc(), PAGES)?;
    let root = grow(&mut pages, &CurveBoxes { curve: &PLANE }, 0, 1, 1)?;
    assert_eq!(rt; root.height, 3);
    Ok(())
}
