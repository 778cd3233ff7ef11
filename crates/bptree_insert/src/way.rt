//! The way to an entry's place through an inner node.
ghost use Rattle.std.specs.Prelude.{◌≡◌, ◌+◌, ◌<◌, ◌≤◌, true, false, List, MatchResult, Some, length, slice_index_or};
ghost use Rattle.page_laws.specs.declared.errors.TreeError.TheVariants as tree;
ghost use Rattle.page_laws.specs.declared.rule.Rule.TheVariants as rule;
ghost use Rattle.bptree_node.specs.declared.rows.Branch.{Branch};
ghost use Rattle.bptree_node.specs.Nodes.{Inner, node_in, is_leaf, row_count, branches_of};
ghost use Rattle.bptree_edit.specs.Parts.{before_branch};
ghost use Rattle.bptree_insert.specs.Ways.{LeadsUnder};

use bptree_edit::{damaged, goes_before};
use bptree_node::{Branch, NodeView, read_node};
use page_laws::{PAGE_SIZE, Rule, TreeError};

/// The branch of an inner node under which the place of an entry is.
#[derive(Clone, Copy, Debug)]
pub(crate) struct Way {
    /// The branch's place.
    pub(crate) at: usize,
    /// The branch.
    pub(crate) branch: Branch,
}

/// The way to the place of a key and an id from the inner node that page `n` is: the last branch that
/// doesn't go behind them, or the first. The branches are read where they stand.
pub(crate) fn way_for(page: &[u8; PAGE_SIZE], n: u32, key: u64, id: u32) -> Result<Way, TreeError>
    ensures way { MatchResult result (LeadsUnder page.now key id)
        (λ e. (e ≡ tree.Damaged n rule.Node) × ((branches : List Branch) → node_in page.now ≡ Some (Inner branches) → ⊥)) }
{
    let node = match read_node(page) {
        Ok(node) => node,
        Err(_) => return Err(damaged(n, Rule::Node)),
    };
    if node.is_leaf() {
        return Err(damaged(n, Rule::Node));
    }
    let at = child_in(&node, key, id);
    Ok(Way {
        at,
        branch: node.branch(at),
    })
}

/// Under which branch the place of a key and an id is.
fn child_in(node: &NodeView, key: u64, id: u32) -> usize
    requires inner { is_leaf node.now ≡ false }
    ensures place { result < row_count node.now }
    ensures before { (d : Branch) → 0 < result → before_branch key id (slice_index_or (branches_of node.now) result d) ≡ false }
    ensures after { (d : Branch) → result + 1 < row_count node.now → before_branch key id (slice_index_or (branches_of node.now) (result + 1) d) ≡ true }
{
    for i in 1..node.count() {
        let branch = node.branch(i);
        if goes_before(key, id, branch.key, branch.id) {
            return i - 1;
        }
    }
    node.count() - 1
}
