//! Entries of leaves.
ghost use Rattle.std.specs.Prelude.{◌≡◌, ◌<◌, ◌≤◌, Some, length};
ghost use Rattle.std.specs.List.{insert as inserted};
ghost use Rattle.bptree_node.specs.declared.layout.TheConstants.{MOST_ENTRIES};
ghost use Rattle.bptree_node.specs.Nodes as words;
ghost use Rattle.bptree_node.specs.Nodes.{Leaf, node_in, FitsEntry};
ghost use Rattle.node_edit.specs.Rows.{entries_on, IsLeaf};

use bptree_node::{ENTRY_SIZE, Entry, ROWS_AT};
use byteorder::{BigEndian, ByteOrder};
use page_laws::PAGE_SIZE;

/// Puts an entry at a place of a leaf that has at most 29: those from the place on move up by one.
pub fn insert_entry(page: &mut [u8; PAGE_SIZE], at: usize, entry: &Entry)
    requires leaf { IsLeaf page.old }
    requires place { at ≤ length (entries_on page.old) }
    requires room { length (entries_on page.old) < MOST_ENTRIES }
    ensures { node_in page.new ≡ Some (Leaf (inserted (entries_on page.old) at entry.now)) }
{
    let old = *page;
    let count = entry_count(&old);
    let from = ROWS_AT + ENTRY_SIZE * at;
    let end = ROWS_AT + ENTRY_SIZE * count;
    page[from + ENTRY_SIZE..end + ENTRY_SIZE].copy_from_slice(&old[from..end]);
    page[from..from + ENTRY_SIZE].copy_from_slice(&entry_bytes(entry));
    page[1] = (count + 1) as u8;
}

/// How many entries a leaf has.
fn entry_count(page: &[u8; PAGE_SIZE]) -> usize
    requires { IsLeaf page.now }
    ensures { result ≡ length (entries_on page.now) }
{
    page[1] as usize
}

/// The bytes of an entry.
#[tactic(auto, unfolding(bptree_node::specs::Nodes::entry_bytes))]
fn entry_bytes(entry: &Entry) -> [u8; ENTRY_SIZE]
    ensures bytes { result ≡ words.entry_bytes entry.now }
    ensures fits { FitsEntry entry.now }
{
    let Entry { key, id, slot } = *entry;
    let mut bytes = [0; ENTRY_SIZE];
    BigEndian::write_u64(&mut bytes, key);
    BigEndian::write_u32(&mut bytes[8..], id);
    BigEndian::write_u32(&mut bytes[12..], slot);
    bytes
}
