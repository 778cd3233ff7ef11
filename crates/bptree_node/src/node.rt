//! Nodes as they are read.
ghost use Rattle.std.specs.Prelude.{◌≡◌, ◌+◌, ◌*◌, ◌≤◌, ◌<◌, ℕ, false, IsTrue, List, length, slice_index_or, Some, None, MatchResult};
ghost use Rattle.page_laws.specs.declared.pages.TheConstants.{PAGE_SIZE};
ghost use Rattle.bptree_node.specs.declared.layout.TheConstants.{ROWS_AT, ENTRY_SIZE, BRANCH_SIZE};
ghost use Rattle.bptree_node.specs.declared.rows.Entry.{Entry};
ghost use Rattle.bptree_node.specs.declared.rows.Branch.{Branch};
ghost use Rattle.bptree_node.specs.Nodes as words;
ghost use Rattle.bptree_node.specs.Nodes.{Leaf, Inner, node_in, leaf_page, inner_page, AreEntries, AreBranches, IsPage};
ghost use Rattle.bptree_node.specs.Trees.{node_entries};

use crate::layout::{BRANCH_SIZE, ENTRY_SIZE, INNER, LEAF, MOST_BRANCHES, MOST_ENTRIES, ROWS_AT};
use crate::{Branch, Entry};
use byteorder::{BigEndian, ByteOrder};
use page_laws::{PAGE_SIZE, are_zero};
use std::marker::Model;
use thiserror::Error;

/// The page isn't a node.
#[derive(Clone, Copy, Debug, PartialEq, Eq, Error)]
#[error("not a node")]
pub struct NodeFault;

/// A page that is a node. Contracts see the node: its entries or its branches. Rows are read where
/// they stand.
#[derive(Debug, Drop)]
pub struct NodeView<'a> {
    page: &'a [u8; PAGE_SIZE],
    is_leaf: bool,
    count: usize,
}

impl<'a> Model for NodeView<'a> {
    ghost use Rattle.bptree_node.specs.NodeViews.{node_of, IsView};
    ghost use Rattle.bptree_node.specs.Nodes.{Node};

    ghost Value = { Node };

    ghost view = { node_of };

    ghost invariant = { IsView };
}

/// The node that a page is, without a copy of its rows.
///
/// It is one exactly if its first byte is 1 for a leaf, with 1 to 30 entries, or 2 for an inner node,
/// with 2 to 14 branches, their number is in the second byte, and all bytes that are no part of them
/// are zero; the answer is `NodeFault` else. The order of the rows isn't looked at. It takes one pass
/// over the bytes that are no part of a row.
pub fn read_node(page: &[u8; PAGE_SIZE]) -> Result<NodeView<'_>, NodeFault>
    ensures { MatchResult result (λ node. node_in page.now ≡ Some node) (λ _. node_in page.now ≡ None) }
{
    let count = page[1] as usize;
    if has_rows(page, LEAF, 1, MOST_ENTRIES, ENTRY_SIZE) {
        return Ok(NodeView {
            page,
            is_leaf: true,
            count,
        });
    }
    if has_rows(page, INNER, 2, MOST_BRANCHES, BRANCH_SIZE) {
        return Ok(NodeView {
            page,
            is_leaf: false,
            count,
        });
    }
    Err(NodeFault)
}

/// Whether the page begins as a node of this kind, with a number of rows of this size within the
/// bounds, and is zero wherever no row is.
#[tactic(auto, unfolding(crate::specs::Nodes::has_rows))]
fn has_rows(page: &[u8; PAGE_SIZE], kind: u8, least: usize, most: usize, size: usize) -> bool
    requires { ROWS_AT + size * most ≤ PAGE_SIZE }
    ensures { result ≡ words.has_rows kind least most size page.now }
{
    let count = page[1] as usize;
    page[0] == kind
        && least <= count
        && count <= most
        && are_zero(&page[2..ROWS_AT])
        && are_zero(&page[ROWS_AT + size * count..])
}

impl NodeView<'_> {
    /// Whether the node is a leaf.
    pub fn is_leaf(&self) -> bool
        ensures { result ≡ words.is_leaf self.now }
    {
        self.is_leaf
    }

    /// How many rows the node has: 1 to 30 entries, or 2 to 14 branches.
    pub fn count(&self) -> usize
        ensures count { result ≡ words.row_count self.now }
        ensures range { words.IsCount result self.now }
    {
        self.count
    }

    /// The entry at a place of a leaf.
    pub fn entry(&self, i: usize) -> Entry
        requires leaf { IsTrue (words.is_leaf self.now) }
        requires place { i < words.row_count self.now }
        ensures { result ≡ slice_index_or (words.entries_of self.now) i result }
    {
        let page = self.page;
        entry_from(page, ROWS_AT + ENTRY_SIZE * i)
    }

    /// The branch at a place of an inner node.
    pub fn branch(&self, i: usize) -> Branch
        requires inner { words.is_leaf self.now ≡ false }
        requires place { i < words.row_count self.now }
        ensures { result ≡ slice_index_or (words.branches_of self.now) i result }
    {
        let page = self.page;
        branch_from(page, ROWS_AT + BRANCH_SIZE * i)
    }
}

/// The entry at a place of a page that was found to be a leaf. It isn't tested again.
pub fn leaf_entry(page: &[u8; PAGE_SIZE], i: usize) -> Entry
    requires { i < length (node_entries (node_in page.now)) }
    ensures { result ≡ slice_index_or (node_entries (node_in page.now)) i result }
{
    entry_from(page, ROWS_AT + ENTRY_SIZE * i)
}

/// The entry whose bytes begin at a place.
fn entry_from(page: &[u8; PAGE_SIZE], at: usize) -> Entry
    requires { at + ENTRY_SIZE ≤ PAGE_SIZE }
    ensures { result ≡ words.entry_from at page.now }
{
    Entry {
        key: long_at(page, at),
        id: word_at(page, at + 8),
        slot: word_at(page, at + 12),
    }
}

/// The branch whose bytes begin at a place.
fn branch_from(page: &[u8; PAGE_SIZE], at: usize) -> Branch
    requires { at + BRANCH_SIZE ≤ PAGE_SIZE }
    ensures { result ≡ words.branch_from at page.now }
{
    Branch {
        key: long_at(page, at),
        id: word_at(page, at + 8),
        child: word_at(page, at + 12),
        low: long_at(page, at + 16),
        high: long_at(page, at + 24),
    }
}

/// The number in the eight bytes from a place on.
#[tactic(auto, unfolding(crate::specs::Nodes::long_at))]
fn long_at(page: &[u8; PAGE_SIZE], at: usize) -> u64
    requires { at + 8 ≤ PAGE_SIZE }
    ensures { result ≡ words.long_at at page.now }
{
    BigEndian::read_u64(&page[at..])
}

/// The number in the four bytes from a place on.
#[tactic(auto, unfolding(crate::specs::Nodes::word_at))]
fn word_at(page: &[u8; PAGE_SIZE], at: usize) -> u32
    requires { at + 4 ≤ PAGE_SIZE }
    ensures { result ≡ words.word_at at page.now }
{
    BigEndian::read_u32(&page[at..])
}

/// The laws of node pages, as a contract: the call does nothing.
///
/// A page that spells rows is the node of these rows, and a page that is a node spells its rows: each
/// node has one page.
pub fn nodes_are_their_rows()
    ensures leaf { (entries : List Entry) → AreEntries entries → node_in (leaf_page entries) ≡ Some (Leaf entries) }
    ensures inner { (branches : List Branch) → AreBranches branches → node_in (inner_page branches) ≡ Some (Inner branches) }
    ensures leaf_bytes { (entries : List Entry) → AreEntries entries → IsPage (leaf_page entries) }
    ensures inner_bytes { (branches : List Branch) → AreBranches branches → IsPage (inner_page branches) }
    ensures leaf_back { (page : List ℕ) (entries : List Entry) → IsPage page → node_in page ≡ Some (Leaf entries) → AreEntries entries × (page ≡ leaf_page entries) }
    ensures inner_back { (page : List ℕ) (branches : List Branch) → IsPage page → node_in page ≡ Some (Inner branches) → AreBranches branches × (page ≡ inner_page branches) }
{}
