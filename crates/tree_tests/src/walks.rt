//! Trees in memory.
ghost use Rattle.std.specs.Prelude.{◌≡◌, IfOk};
ghost use Rattle.page_laws.specs.PlainPages.{has, zeros};

use bptree_node::{Branch, Entry, Region, write_inner, write_leaf};
use bptree_walk::{Cursor, find, walk};
use page_laws::{PAGE_SIZE, PageError, Pages, PlainPages, Root, Rule, TreeError};
use std::alloc::Global;
use std::array;
use std::test::Fail;

/// The root is in page 3, over two leaves in the pages 1 and 2.
const ROOT: Root = Root { page: 3, height: 2 };

/// The entries, two of each key.
fn entry(i: u32) -> Entry {
    Entry {
        key: u64::from(i / 2) + 1,
        id: i,
        slot: u32::MAX - i,
    }
}

/// The branch that leads to the leaf with the entries from one to another.
fn branch(child: u32, first: u32, last: u32) -> Branch {
    let Entry { key, id, .. } = entry(first);
    Branch {
        key,
        id,
        child,
        low: key,
        high: entry(last).key,
    }
}

/// Four pages, of which all but the first are live.
fn live_pages(alloc: Global) -> Result<PlainPages, PageError>
    ensures { IfOk result (λ plain. has plain ≡ has (zeros 4 1)) }
{
    let mut pages = PlainPages::new(alloc, 4, 1)?;
    for _ in 0..3 {
        if pages.free_pages() > 0 {
            pages.take_page();
        }
    }
    Ok(pages)
}

/// A root over two leaves, with 15 and 16 entries. Two of one key are in different leaves.
fn tree(alloc: Global) -> Result<PlainPages, PageError>
    ensures { IfOk result (λ plain. has plain ≡ has (zeros 4 1)) }
{
    let mut pages = live_pages(alloc)?;
    let mut page = [0; PAGE_SIZE];
    let entries: [Entry; 31] = array::from_fn(|i| entry(i as u32));
    write_leaf(&entries[..15], &mut page);
    pages.put(1, &page);
    write_leaf(&entries[15..], &mut page);
    pages.put(2, &page);
    write_inner(&[branch(1, 0, 14), branch(2, 15, 30)], &mut page);
    pages.put(3, &page);
    Ok(pages)
}

/// The keys between two.
#[derive(Drop)]
struct Span {
    least: u64,
    greatest: u64,
}

impl Region for Span {
    ghost use Rattle.std.specs.Prelude.{nat_le, ◌&&◌};

    ghost meets_box = { λ s low high. nat_le low s.greatest && nat_le s.least high };

    ghost has_key = { λ s key. nat_le s.least key && nat_le key s.greatest };

    fn meets(&self, low: u64, high: u64) -> bool {
        low <= self.greatest && self.least <= high
    }

    fn has(&self, key: u64) -> bool {
        self.least <= key && key <= self.greatest
    }
}

#[test]
fn a_cursor_gives_all_entries(rt: HostRuntime) -> Result<(), Fail> {
    let mut pages = tree(rt.alloc())?;
    let mut cursor = Cursor::new(rt.alloc())?;
    cursor.begin(ROOT);
    for i in 0..31 {
        assert_eq!(rt; cursor.next_entry(&mut pages)?, Some(entry(i)));
    }
    assert_eq!(rt; cursor.next_entry(&mut pages)?, None);
    Ok(())
}

#[test]
fn each_entry_is_found(rt: HostRuntime) -> Result<(), Fail> {
    let mut pages = tree(rt.alloc())?;
    for i in 0..31 {
        let Entry { key, id, slot } = entry(i);
        assert_eq!(rt; find(&mut pages, ROOT, key, id)?, Some(slot));
    }
    Ok(())
}

#[test]
fn others_are_not_found(rt: HostRuntime) -> Result<(), Fail> {
    let mut pages = tree(rt.alloc())?;
    for (key, id) in [(0, 0), (1, 2), (8, 13), (8, 16), (16, 31), (17, 0)] {
        assert_eq!(rt; find(&mut pages, ROOT, key, id)?, None);
    }
    Ok(())
}

#[test]
fn a_walk_gives_the_entries_of_a_region(rt: HostRuntime) -> Result<(), Fail> {
    let mut pages = tree(rt.alloc())?;
    for (least, greatest, first, count) in [
        (0, 20, Some(0), 31),
        (1, 1, Some(0), 2),
        (8, 8, Some(14), 2),
        (9, 20, Some(16), 15),
        (17, 20, None, 0),
    ] {
        let found = walk(rt.alloc(), &mut pages, ROOT, &Span { least, greatest })?;
        let found = found.as_slice();
        assert_eq!(rt; found.len(), count);
        assert_eq!(rt; found.first().map(|e| e.id), first);
    }
    Ok(())
}

/// What was done to a page.
#[derive(Clone, Copy)]
enum Edit {
    /// It was made zero.
    Zero,
    /// It was made a leaf of one entry.
    Leaf,
    /// It was given back.
    Free,
}

/// The tree with one page edited.
fn edited_tree(alloc: Global, n: u32, edit: Edit) -> Result<PlainPages, PageError> {
    let mut pages = tree(alloc)?;
    if !pages.is_live(n) {
        return Ok(pages);
    }
    let mut page = [0; PAGE_SIZE];
    match edit {
        Edit::Zero => pages.put(n, &page),
        Edit::Leaf => {
            write_leaf(&[entry(0)], &mut page);
            pages.put(n, &page);
        }
        Edit::Free => pages.give_page(n),
    }
    Ok(pages)
}

#[test]
fn damage_is_named(rt: HostRuntime) -> Result<(), Fail> {
    for (n, edit, page, rule) in [
        (3, Edit::Free, 1, Rule::Page),
        (3, Edit::Zero, 3, Rule::Node),
        (3, Edit::Leaf, 3, Rule::Node),
        (2, Edit::Free, 3, Rule::Page),
        (2, Edit::Zero, 2, Rule::Node),
    ] {
        let mut pages = edited_tree(rt.alloc(), n, edit)?;
        let why = TreeError::Damaged { page, rule };
        assert_eq!(rt; find(&mut pages, ROOT, 16, 30), Err(why));
        let all = Span {
            least: 0,
            greatest: 20,
        };
        assert_eq!(rt; walk(rt.alloc(), &mut pages, ROOT, &all).err(), Some(why));
    }
    Ok(())
}

#[test]
fn the_empty_tree_has_no_entries(rt: HostRuntime) -> Result<(), Fail> {
    let mut pages = PlainPages::new(rt.alloc(), 4, 1)?;
    let empty = Root { page: 0, height: 0 };
    let all = Span {
        least: 0,
        greatest: 20,
    };
    let found = walk(rt.alloc(), &mut pages, empty, &all)?;
    assert!(rt; found.as_slice().is_empty());
    assert_eq!(rt; find(&mut pages, empty, 1, 0)?, None);
    Ok(())
}
