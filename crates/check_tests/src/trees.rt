//! Trees in memory, built by hand, and what a check makes of them.
ghost use Rattle.std.specs.Prelude.{◌≡◌, ◌≤◌, ◌<◌, IfOk};
ghost use Rattle.page_laws.specs.PlainPages.{in_pool, zeros};
ghost use Rattle.tree_check.specs.PageSets.{CoversPool};
ghost use Rattle.bptree_node.specs.declared.layout.TheConstants.{HEIGHT_LIMIT};

use bptree_edit::{put_inner, put_leaf};
use bptree_node::{Boxes, Branch, Entry, MOST_BRANCHES, MOST_ENTRIES, Summary};
use page_laws::{PAGE_SIZE, PageError, Pages, PlainPages, Root, TreeError};
use spb_edge::Memory;
use std::alloc::Global;
use std::array;
use tree_check::{PageSet, check_tree};
use z_curve::ZCurve;

/// The curve of the cells (0, 0) to (3, 3), with the keys 0 to 15.
pub const PLANE: ZCurve = ZCurve { n: 2, b: 2 };

/// The number of pages of the small tree, the first of which is outside of the pool.
pub const PAGES: u32 = 5;

/// The small tree's root is in page 3, over two leaves in the pages 1 and 2. Page 4 is free.
pub const ROOT: Root = Root { page: 3, height: 2 };

/// The number of pages of the id tree, the first of which is outside of the pool.
pub const ID_PAGES: u32 = 19;

/// The root of the id tree.
pub const ID_ROOT: Root = Root {
    page: 18,
    height: 3,
};

/// The branches of the small tree's root. The entries with the keys 7 to 15 are in the box from (1, 0) to
/// (3, 3).
pub const BRANCHES: [Branch; 2] = [
    Branch {
        key: 0,
        id: 0,
        child: 1,
        low: 0,
        high: 7,
    },
    Branch {
        key: 7,
        id: 15,
        child: 2,
        low: 2,
        high: 15,
    },
];

/// The entries of the small tree: two of each key, but one of key 15. Those with key 7 are in
/// different leaves.
pub fn entries() -> [Entry; 31] {
    array::from_fn(|i| Entry {
        key: i as u64 / 2,
        id: i as u32,
        slot: 0,
    })
}

/// So many pages, of which all but the first are of the pool and live.
pub fn live_pages(alloc: Global, count: u32) -> Result<PlainPages, PageError>
    ensures { IfOk result (λ plain. in_pool plain ≡ in_pool (zeros count 1)) }
{
    let mut pages = PlainPages::new(alloc, count, 1)?;
    for _ in 0..count {
        if pages.free_pages() > 0 {
            pages.take_page();
        }
    }
    Ok(pages)
}

/// Makes a live page hold these bytes.
pub fn lay(pages: &mut PlainPages, n: u32, page: &[u8; PAGE_SIZE])
    ensures { in_pool pages.new ≡ in_pool pages.old }
{
    if pages.is_live(n) {
        pages.put(n, page);
    }
}

/// Makes a live page the leaf of these entries.
pub fn lay_leaf(pages: &mut PlainPages, n: u32, entries: &[Entry])
    ensures { in_pool pages.new ≡ in_pool pages.old }
{
    if pages.is_live(n) && !entries.is_empty() && entries.len() <= MOST_ENTRIES {
        put_leaf(pages, n, entries);
    }
}

/// Makes a live page the inner node of these branches.
pub fn lay_inner(pages: &mut PlainPages, n: u32, branches: &[Branch])
    ensures { in_pool pages.new ≡ in_pool pages.old }
{
    if pages.is_live(n) && branches.len() >= 2 && branches.len() <= MOST_BRANCHES {
        put_inner(pages, n, branches);
    }
}

/// Gives a live page back.
fn free(pages: &mut PlainPages, n: u32)
    ensures { in_pool pages.new ≡ in_pool pages.old }
{
    if pages.is_live(n) {
        pages.give_page(n);
    }
}

/// The small tree.
pub fn small_tree(alloc: Global) -> Result<PlainPages, PageError>
    ensures { IfOk result (λ plain. in_pool plain ≡ in_pool (zeros 5 1)) }
{
    let mut pages = live_pages(alloc, PAGES)?;
    let entries = entries();
    lay_leaf(&mut pages, 1, &entries[..15]);
    lay_leaf(&mut pages, 2, &entries[15..]);
    lay_inner(&mut pages, 3, &BRANCHES);
    free(&mut pages, 4);
    Ok(pages)
}

/// A page with fifteen entries, whose keys are their ids, from one on.
fn lay_ids(pages: &mut PlainPages, n: u32, first: u32)
    ensures { in_pool pages.new ≡ in_pool pages.old }
{
    let entries: [Entry; 15] = array::from_fn(|i| {
        let id = first.saturating_add(i as u32);
        Entry {
            key: u64::from(id),
            id,
            slot: 0,
        }
    });
    lay_leaf(pages, n, &entries);
}

/// A branch of an id tree.
fn id_branch(child: u32, id: u32) -> Branch {
    Branch {
        key: u64::from(id),
        id,
        child,
        low: 0,
        high: 0,
    }
}

/// An id tree of three levels. Page 18 is its root, over the nodes in pages 16 and 17. The leaf in page
/// n, from 1 on, has the ids from 15 * n on; the first node has so many of them, the second one the
/// seven behind that.
pub fn id_tree(alloc: Global, first: u32) -> Result<PlainPages, PageError>
    requires { first ≤ 8 }
    ensures { IfOk result (λ plain. in_pool plain ≡ in_pool (zeros 19 1)) }
{
    let mut pages = live_pages(alloc, ID_PAGES)?;
    for n in 1..16 {
        lay_ids(&mut pages, n, 15 * n);
    }
    let branches: [Branch; 15] = array::from_fn(|i| id_branch(i as u32 + 1, 15 * (i as u32 + 1)));
    let mid = first as usize;
    lay_inner(&mut pages, 16, branches.get(..mid).unwrap_or(&[]));
    lay_inner(&mut pages, 17, branches.get(mid..mid + 7).unwrap_or(&[]));
    lay_inner(
        &mut pages,
        18,
        &[id_branch(16, 15), id_branch(17, 15 * (first + 1))],
    );
    Ok(pages)
}

/// No pages of so many.
pub fn no_pages(alloc: Global, pages: &PlainPages, count: u32) -> Result<PageSet, Memory>
    requires { in_pool pages.now ≡ in_pool (zeros count 1) }
    ensures { IfOk result (λ used. CoversPool (in_pool pages.now) used) }
{
    let used = PageSet::new(alloc, 0, count)?;
    Ok(used)
}

/// Checks a tree, and adds its entries to those gathered and its pages to those used.
pub fn check<S: Summary, F: Boxes<S>>(
    pages: &mut PlainPages,
    root: Root,
    boxes: &F,
    used: &mut PageSet,
    entries: &mut Vec<Entry>,
) -> Result<(), TreeError>
    requires height { root.height ≤ HEIGHT_LIMIT }
    requires empty { root.height ≡ 0 → root.page ≡ 0 }
    requires range { CoversPool (in_pool pages.old) used.old }
    ensures range { CoversPool (in_pool pages.new) used.new }
    ensures pool { in_pool pages.new ≡ in_pool pages.old }
{
    check_tree(pages, root, boxes, used, entries)
}

/// The entries that a check of a tree gathers, if it is sound.
pub fn checked<S: Summary, F: Boxes<S>>(
    alloc: Global,
    pages: &mut PlainPages,
    count: u32,
    root: Root,
    boxes: &F,
) -> Result<Vec<Entry>, TreeError>
    requires height { root.height ≤ HEIGHT_LIMIT }
    requires empty { root.height ≡ 0 → root.page ≡ 0 }
    requires pool { in_pool pages.old ≡ in_pool (zeros count 1) }
    ensures { in_pool pages.new ≡ in_pool pages.old }
{
    let mut used = no_pages(alloc, pages, count)?;
    let mut entries = Vec::new(alloc);
    check(pages, root, boxes, &mut used, &mut entries)?;
    Ok(entries)
}
