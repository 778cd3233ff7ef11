//! Nodes as they are written.
ghost use Rattle.std.specs.Prelude.{◌≡◌, ◌<◌, ◌≤◌, [], length, Some};
ghost use Rattle.bptree_node.specs.declared.layout.TheConstants.{MOST_ENTRIES, MOST_BRANCHES};
ghost use Rattle.bptree_node.specs.Nodes as words;
ghost use Rattle.bptree_node.specs.Nodes.{Leaf, Inner, node_in, leaf_page, inner_page, spelled, AreEntries, AreBranches, FitsEntry, FitsBranch};

use crate::layout::{BRANCH_SIZE, ENTRY_SIZE, INNER, LEAF, ROWS_AT};
use crate::{Branch, Entry};
use byteorder::{BigEndian, ByteOrder};
use page_laws::PAGE_SIZE;

/// Makes the page the leaf of these entries, 1 to 30 of them.
pub fn write_leaf(entries: &[Entry], page: &mut [u8; PAGE_SIZE])
    requires some { 1 ≤ length entries.now }
    requires few { length entries.now ≤ MOST_ENTRIES }
    ensures page { page.new ≡ leaf_page entries.now }
    ensures node { node_in page.new ≡ Some (Leaf entries.now) }
    ensures entries { AreEntries entries.now }
{
    write_head(LEAF, entries.len(), page);
    for (i, entry) in entries.iter().enumerate() {
        let at = ROWS_AT + ENTRY_SIZE * i;
        page[at..at + ENTRY_SIZE].copy_from_slice(&entry_bytes(entry));
    }
}

/// Makes the page the inner node of these branches, 2 to 14 of them.
pub fn write_inner(branches: &[Branch], page: &mut [u8; PAGE_SIZE])
    requires some { 2 ≤ length branches.now }
    requires few { length branches.now ≤ MOST_BRANCHES }
    ensures page { page.new ≡ inner_page branches.now }
    ensures node { node_in page.new ≡ Some (Inner branches.now) }
    ensures branches { AreBranches branches.now }
{
    write_head(INNER, branches.len(), page);
    for (i, branch) in branches.iter().enumerate() {
        let at = ROWS_AT + BRANCH_SIZE * i;
        page[at..at + BRANCH_SIZE].copy_from_slice(&branch_bytes(branch));
    }
}

/// Makes the page zero but for the kind and the number of rows.
fn write_head(kind: u8, count: usize, page: &mut [u8; PAGE_SIZE])
    requires { count < 256 }
    ensures { page.new ≡ spelled kind count [] }
{
    page.fill(0);
    page[0] = kind;
    page[1] = count as u8;
}

/// The bytes of an entry.
#[tactic(auto, unfolding(crate::specs::Nodes::entry_bytes))]
fn entry_bytes(entry: &Entry) -> [u8; ENTRY_SIZE]
    ensures bytes { result ≡ words.entry_bytes entry.now }
    ensures fits { FitsEntry entry.now }
{
    let Entry { key, id, slot } = *entry;
    let mut bytes = [0; ENTRY_SIZE];
    BigEndian::write_u64(&mut bytes, key);
    BigEndian::write_u32(&mut bytes[8..], id);
    BigEndian::write_u32(&mut bytes[12..], slot);
    bytes
}

/// The bytes of a branch.
#[tactic(auto, unfolding(crate::specs::Nodes::branch_bytes))]
fn branch_bytes(branch: &Branch) -> [u8; BRANCH_SIZE]
    ensures bytes { result ≡ words.branch_bytes branch.now }
    ensures fits { FitsBranch branch.now }
{
    let Branch {
        key,
        id,
        child,
        low,
        high,
    } = *branch;
    let mut bytes = [0; BRANCH_SIZE];
    BigEndian::write_u64(&mut bytes, key);
    BigEndian::write_u32(&mut bytes[8..], id);
    BigEndian::write_u32(&mut bytes[12..], child);
    BigEndian::write_u64(&mut bytes[16..], low);
    BigEndian::write_u64(&mut bytes[24..], high);
    bytes
}
