//! Leaves that are checked.
ghost use Rattle.std.specs.Prelude.{◌≡◌, ◌++◌, false, IsTrue, IfOk, OnOk};
ghost use Rattle.bptree_node.specs.Trees.{IsRising};
ghost use Rattle.tree_check.specs.Checks.{ChecksLeaf};

use crate::branch::ends_before;
use crate::node::Checked;
use bptree_edit::{damaged, entries_of, leaf_part};
use bptree_node::{Boxes, Entry, Summary};
use page_laws::{PAGE_SIZE, Rule, TreeError};
use spb_edge::Memory;

/// Checks the leaf that page `n` is, and adds its entries to those gathered.
pub(crate) fn check_leaf<S: Summary, F: Boxes<S>>(
    page: &[u8; PAGE_SIZE],
    n: u32,
    boxes: &F,
    entries: &mut Vec<Entry>,
) -> Result<Checked<S>, TreeError>
    ensures checks { ChecksLeaf S.joined (F.entry_box boxes.now) n page.now entries.old.items entries.new.items result }
    ensures made { IfOk result (λ checked. F.is_made boxes.now checked.summary) }
{
    let rows = entries_of(page, n)?;
    if !is_rising(&rows) {
        return Err(damaged(n, Rule::Order));
    }
    let Some(part) = leaf_part(&rows, n, boxes) else {
        return Err(damaged(n, Rule::Key));
    };
    keep(entries, &rows)?;
    Ok(Checked {
        rows: rows.len(),
        summary: part.summary,
    })
}

/// Whether each entry goes before the next one.
fn is_rising(entries: &[Entry]) -> bool
    ensures rising { IsTrue result → IsRising entries.now }
    ensures other { result ≡ false → IsRising entries.now → ⊥ }
{
    for i in 0..entries.len() {
        let entry = entries[i];
        if !ends_before(&entries[..i], entry.key, entry.id) {
            return false;
        }
    }
    true
}

/// Adds entries behind those gathered.
fn keep(entries: &mut Vec<Entry>, rows: &[Entry]) -> Result<(), Memory>
    ensures { OnOk result (entries.new.items ≡ entries.old.items ++ rows.now) }
{
    entries.extend_from_slice(rows)?;
    Ok(())
}
