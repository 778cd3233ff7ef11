//! Trees read, round after round.
ghost use Rattle.std.specs.Prelude.{◌≤◌};
ghost use Rattle.bptree_node.specs.declared.layout.TheConstants.{HEIGHT_LIMIT};

use crate::untold::Untold;
use bptree_node::{Entry, Region, read_node};
use bptree_walk::{Cursor, find, walk};
use page_laws::{PAGE_SIZE, Pages, Root, TreeError};
use spb_edge::Memory;
use std::alloc::Global;

/// How many pages are copied at most.
const MOST_COPIES: usize = 512;

/// The region of all keys.
struct AllKeys;

impl Region for AllKeys {
    ghost use Rattle.std.specs.Prelude.{true};

    ghost meets_box = { λ _ _ _. true };

    ghost has_key = { λ _ _. true };

    fn meets(&self, _: u64, _: u64) -> bool {
        true
    }

    fn has(&self, _: u64) -> bool {
        true
    }
}

/// Copies of leaves of a tree, side by side.
#[derive(Drop)]
pub(crate) struct Leaves(Vec<[u8; PAGE_SIZE]>);

impl Leaves {
    /// Copies of the first leaves by their numbers, at most 512 of them.
    pub(crate) fn of_tree(alloc: Global, pages: &mut Untold) -> Result<Leaves, TreeError> {
        let mut copies = Vec::new(alloc);
        let mut page = [0; PAGE_SIZE];
        for n in 0..pages.end() {
            if copies.len() < MOST_COPIES && pages.is_live(n) {
                pages.get(n, &mut page)?;
                if is_leaf(&page) {
                    copies.push(page).map_err(Memory::from)?;
                }
            }
        }
        Ok(Leaves(copies))
    }

    /// The number of their entries. Each page is read as a node in each round.
    pub(crate) fn count_sum(&self, rounds: u32) -> u64 {
        let mut sum: u64 = 0;
        for _ in 0..rounds {
            for page in &self.0 {
                sum = sum.wrapping_add(count_in(page));
            }
        }
        sum
    }

    /// The sum of their entries, each read in each round.
    pub(crate) fn entry_sum(&self, rounds: u32) -> u64 {
        let mut sum: u64 = 0;
        for _ in 0..rounds {
            for page in &self.0 {
                sum = sum.wrapping_add(entry_sum(page));
            }
        }
        sum
    }
}

/// Whether the page is a leaf.
fn is_leaf(page: &[u8; PAGE_SIZE]) -> bool {
    match read_node(page) {
        Ok(node) => node.is_leaf(),
        Err(_) => false,
    }
}

/// How many rows the page has if it is a node.
fn count_in(page: &[u8; PAGE_SIZE]) -> u64 {
    match read_node(page) {
        Ok(node) => node.count() as u64,
        Err(_) => 0,
    }
}

/// The sum of the page's entries if it is a leaf.
fn entry_sum(page: &[u8; PAGE_SIZE]) -> u64 {
    let mut sum: u64 = 0;
    if let Ok(node) = read_node(page)
        && node.is_leaf()
    {
        for i in 0..node.count() {
            sum = sum.wrapping_add(number_of(&node.entry(i)));
        }
    }
    sum
}

/// A number that the entry's key and slot determine.
fn number_of(entry: &Entry) -> u64 {
    entry.key.wrapping_add(u64::from(entry.slot))
}

/// A sum of the tree's entries that depends on their order.
pub(crate) fn order_sum(alloc: Global, pages: &mut Untold, root: Root) -> Result<u64, TreeError>
    requires { root.height ≤ HEIGHT_LIMIT }
{
    let mut cursor = Cursor::new(alloc)?;
    cursor.begin(root);
    let mut sum: u64 = 0;
    for _ in 0..u64::MAX {
        let Some(entry) = cursor.next_entry(pages)? else {
            break;
        };
        sum = sum.wrapping_mul(3).wrapping_add(number_of(&entry));
    }
    Ok(sum)
}

/// The sum of the slots of the entries, each found in each round.
pub(crate) fn found_sum(
    pages: &mut Untold,
    root: Root,
    entries: &[Entry],
    rounds: u32,
) -> Result<u64, TreeError>
    requires { root.height ≤ HEIGHT_LIMIT }
{
    let mut sum: u64 = 0;
    for _ in 0..rounds {
        for entry in entries {
            if let Some(slot) = find(pages, root, entry.key, entry.id)? {
                sum = sum.wrapping_add(u64::from(slot));
            }
        }
    }
    Ok(sum)
}

/// The sum of the entries of the walks over all of the tree, one in each round.
pub(crate) fn walk_sum(
    alloc: Global,
    pages: &mut Untold,
    root: Root,
    rounds: u32,
) -> Result<u64, TreeError>
    requires { root.height ≤ HEIGHT_LIMIT }
{
    let mut sum: u64 = 0;
    for _ in 0..rounds {
        for entry in walk(alloc, pages, root, &AllKeys)?.as_slice() {
            sum = sum.wrapping_add(number_of(entry));
        }
    }
    Ok(sum)
}

/// The sum of the entries that a cursor gives, begun in each round.
pub(crate) fn course_sum(
    alloc: Global,
    pages: &mut Untold,
    root: Root,
    rounds: u32,
) -> Result<u64, TreeError>
    requires { root.height ≤ HEIGHT_LIMIT }
{
    let mut cursor = Cursor::new(alloc)?;
    let mut sum: u64 = 0;
    for _ in 0..rounds {
        cursor.begin(root);
        for _ in 0..u64::MAX {
            let Some(entry) = cursor.next_entry(pages)? else {
                break;
            };
            sum = sum.wrapping_add(number_of(&entry));
        }
    }
    Ok(sum)
}
