//! Branches that are compared with what is under them.
ghost use Rattle.std.specs.Prelude.{◌≡◌, ◌-◌, ◌<◌, MatchResult};
ghost use Rattle.bptree_edit.specs.NodesAt.{least_rows};
ghost use Rattle.tree_check.specs.Checks as words;
ghost use Rattle.tree_check.specs.Checks.{IsMatched, IsUnmatched};
ghost use Rattle.tree_check.specs.Damage as damage;

use crate::node::{Checked, Spot};
use bptree_edit::{damaged, goes_before};
use bptree_node::{Boxes, Branch, Entry, LEAST_BRANCHES, LEAST_ENTRIES, Summary};
use page_laws::{Rule, TreeError};

/// Whether a branch of the inner node says what is under its child, and goes behind what is under the
/// branches before it.
pub(crate) fn check_branch<S: Summary, F: Boxes<S>>(
    branch: &Branch,
    at: Spot,
    before: &[Entry],
    under: &[Entry],
    child: &Checked<S>,
    boxes: &F,
) -> Result<(), TreeError>
    requires level { 0 < at.level }
    requires made { F.is_made boxes.now child.now.summary }
    ensures { MatchResult result
        (λ _. IsMatched (F.keys_of boxes.now) (least_rows (at.level - 1)) branch.now before.now under.now child.now)
        (IsUnmatched (F.keys_of boxes.now) (least_rows (at.level - 1)) at.page branch.now before.now under.now child.now) }
{
    if child.rows < least_rows(at.level - 1) {
        return Err(damaged(branch.child, Rule::Fill));
    }
    if !has_first(under, branch.key, branch.id) {
        return Err(damaged(at.page, Rule::Order));
    }
    if !ends_before(before, branch.key, branch.id) {
        return Err(damaged(at.page, Rule::Order));
    }
    if boxes.as_keys(&child.summary) != (branch.low, branch.high) {
        return Err(damaged(at.page, Rule::Box));
    }
    Ok(())
}

/// How many rows a node of this level has at least that isn't the root.
fn least_rows(level: u8) -> usize
    ensures { result ≡ least_rows level }
{
    match level {
        0 => LEAST_ENTRIES,
        _ => LEAST_BRANCHES,
    }
}

/// Whether the first entry has this key and this id.
fn has_first(entries: &[Entry], key: u64, id: u32) -> bool
    ensures { result ≡ words.has_first key id entries.now }
{
    match entries.first() {
        Some(first) => first.key == key && first.id == id,
        None => false,
    }
}

/// Whether the last entry, if there is one, goes before a key and an id.
pub(crate) fn ends_before(entries: &[Entry], key: u64, id: u32) -> bool
    ensures { result ≡ damage.ends_before key id entries.now }
{
    match entries.last() {
        Some(last) => goes_before(last.key, last.id, key, id),
        None => true,
    }
}
