//! What branches are made from.
ghost use Rattle.std.specs.Prelude.{◌≡◌};
ghost use Rattle.page_laws.specs.declared.errors.TreeError.TheVariants as tree;
ghost use Rattle.bptree_node.specs.Trees as words;
ghost use Rattle.bptree_edit.specs.Parts as parts;

use bptree_node::{Boxes, Branch, Summary};
use page_laws::{Rule, TreeError};

/// What a branch is made from: the first key and id under a node, its page, and the summary of all
/// under it.
#[derive(Clone, Copy, Debug)]
pub struct Part<S> {
    /// The first key under the node.
    pub key: u64,
    /// The id of the first entry under the node.
    pub id: u32,
    /// The node's page.
    pub page: u32,
    /// The summary of all entries under the node.
    pub summary: S,
}

/// The branch of a node. Its summary is one that the boxes made.
pub fn branch_of<S: Summary, F: Boxes<S>>(part: &Part<S>, boxes: &F) -> Branch
    requires { F.is_made boxes.now part.now.summary }
    ensures { result ≡ parts.branch_of (F.keys_of boxes.now) part.now }
{
    let (low, high) = boxes.as_keys(&part.summary);
    Branch {
        key: part.key,
        id: part.id,
        child: part.page,
        low,
        high,
    }
}

/// The damage of a page that breaks a rule.
pub fn damaged(page: u32, rule: Rule) -> TreeError
    ensures { result ≡ tree.Damaged page rule }
{
    TreeError::Damaged { page, rule }
}

/// Whether the key and the id go before others: by the key, then by the id.
pub fn goes_before(key: u64, id: u32, other_key: u64, other_id: u32) -> bool
    ensures { result ≡ words.goes_before key id other_key other_id }
{
    key < other_key || (key == other_key && id < other_id)
}
