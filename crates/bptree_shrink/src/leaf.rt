//! Leaves that an entry is taken out of.
ghost use Rattle.std.specs.Prelude.{◌≡◌, ℕ, ◌<◌, ◌≤◌, true, false, MatchOption, length, slice_index_or};
ghost use Rattle.bptree_node.specs.Trees.{is_entry, slot_of};
ghost use Rattle.bptree_node.specs.declared.rows.Entry.{Entry};
ghost use Rattle.bptree_shrink.specs.Shrinking.{IsWithout};

use bptree_edit::Entries;
use bptree_node::Entry;

/// Takes the entry of a key and an id out of a leaf's entries, and gives its slot. If there is no such
/// entry the answer is None, and the entries stay as they are.
pub fn take_entry(entries: &mut Entries, key: u64, id: u32) -> Option<u32>
    ensures slot { result ≡ slot_of key id entries.old.items }
    ensures entries { MatchOption result (entries.new ≡ entries.old) (λ slot. IsWithout key id slot entries.old.items entries.new.items) }
{
    let at = place_of(entries.as_slice(), key, id);
    if at == entries.len() {
        return None;
    }
    let entry = entries.remove(at);
    Some(entry.slot)
}

/// The place of the first entry of a key and an id, or how many entries there are.
fn place_of(entries: &[Entry], key: u64, id: u32) -> usize
    ensures place { result ≤ length entries.now }
    ensures before { (k : ℕ) (d : Entry) → k < result → is_entry key id (slice_index_or entries.now k d) ≡ false }
    ensures here { (d : Entry) → result < length entries.now → is_entry key id (slice_index_or entries.now result d) ≡ true }
{
    entries
        .iter()
        .position(|e| e.key == key && e.id == id)
        .unwrap_or(entries.len())
}
