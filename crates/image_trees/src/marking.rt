//! Slots that entries name, as marks.
ghost use Rattle.std.specs.Prelude.{◌≡◌, ℕ, ◌<◌, nat_lt, ◌==◌, ◌&&◌, ◌||◌, IsTrue};
ghost use Rattle.page_laws.specs.Pages.{is_among};
ghost use Rattle.tree_check.specs.PageSets.{has, covers, HasSameRange};
ghost use Rattle.image_trees.specs.Trees.{slots_of};

use bptree_node::Entry;
use tree_check::PageSet;

/// Marks the slots that entries name, those of them that are below the cap.
pub(crate) fn mark(entries: &[Entry], cap: u32, named: &mut PageSet)
    requires { (n : ℕ) → n < cap → IsTrue (covers named.old n) }
    ensures named { (m : ℕ) → has named.new m ≡ (has named.old m || (nat_lt m cap && is_among m (slots_of entries.now))) }
    ensures range { HasSameRange named.old named.new }
{
    for i in 0..entries.len() {
        mark_slot(entries[i].slot, cap, named);
    }
}

/// Marks a slot if it is below the cap.
fn mark_slot(slot: u32, cap: u32, named: &mut PageSet)
    requires { (n : ℕ) → n < cap → IsTrue (covers named.old n) }
    ensures named { (m : ℕ) → has named.new m ≡ (has named.old m || (nat_lt m cap && (slot == m))) }
    ensures range { HasSameRange named.old named.new }
{
    if slot < cap {
        named.insert(slot);
    }
}
