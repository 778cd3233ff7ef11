//! What is done at a node: a leaf's entries are there to be given, and an inner node's children are put
//! ahead.
ghost use Rattle.std.specs.Prelude.{◌≡◌, ◌-◌, ◌≤◌, ◌<◌, ◌++◌, false, length, take, MatchResult};
ghost use Rattle.smallvec.specs.SmallVec.{HasRoomFor};
ghost use Rattle.page_laws.specs.Pages.{is_live};
ghost use Rattle.bptree_node.specs.declared.layout.TheConstants.{MOST_BRANCHES};
ghost use Rattle.bptree_node.specs.Nodes.{node_in, is_leaf, branches_of};
ghost use Rattle.bptree_node.specs.Trees.{node_entries};
ghost use Rattle.bptree_walk.specs.Visits.{followed, GoesDeeper, HasLost, IsOpened, IsRefused, ArePut};

use crate::ahead::Ahead;
use crate::node::{read_level, test_live};
use bptree_node::{NodeView, Region};
use page_laws::{PAGE_SIZE, Pages, TreeError};
use smallvec::SmallVec;

/// How many nodes are ahead at most: 14 of each of five levels.
pub(crate) const AHEAD_LIMIT: usize = 70;

/// How many entries the page has if it is a leaf. If it is an inner node, the children whose boxes
/// meet the region are put ahead, so that the first of them is the next one.
///
/// Damaged if the page isn't a node of its level, or names a child of these that isn't live.
pub(crate) fn open_node<P: Pages, G: Region>(
    pages: &P,
    page: &[u8; PAGE_SIZE],
    next: Ahead,
    region: &G,
    ahead: &mut SmallVec<Ahead, AHEAD_LIMIT>,
) -> Result<usize, TreeError>
    requires { 0 < next.level → HasRoomFor ahead.old MOST_BRANCHES }
    ensures opened { MatchResult result
        (λ count. (count ≤ length (node_entries (node_in page.now)))
        × IsOpened (is_live (P.in_pool pages.now) (P.free pages.now)) (G.meets_box region.now) next page.now (take count (node_entries (node_in page.now))) ahead.old.items ahead.new.items)
        (IsRefused (is_live (P.in_pool pages.now) (P.free pages.now)) next page.now) }
    ensures deeper { GoesDeeper next.level ahead.old.items ahead.new.items }
    ensures capacity { ahead.new.capacity ≡ ahead.old.capacity }
{
    let node = read_level(page, next)?;
    if next.level == 0 {
        return Ok(node.count());
    }
    put_ahead(pages, &node, next, region, ahead)?;
    Ok(0)
}

/// Puts the children whose boxes meet the region ahead, the last one first. Damaged, and names the node,
/// exactly if one of them isn't live.
fn put_ahead<P: Pages, G: Region>(
    pages: &P,
    node: &NodeView,
    next: Ahead,
    region: &G,
    ahead: &mut SmallVec<Ahead, AHEAD_LIMIT>,
) -> Result<(), TreeError>
    requires inner { is_leaf node.now ≡ false }
    requires level { 0 < next.level }
    requires room { HasRoomFor ahead.old MOST_BRANCHES }
    ensures put { MatchResult result
        (λ _. ArePut (is_live (P.in_pool pages.now) (P.free pages.now)) (followed (G.meets_box region.now) (next.level - 1) next.page (branches_of node.now)) ahead.old.items ahead.new.items)
        (HasLost (is_live (P.in_pool pages.now) (P.free pages.now)) next (branches_of node.now)) }
    ensures deeper { GoesDeeper next.level ahead.old.items ahead.new.items }
    ensures capacity { ahead.new.capacity ≡ ahead.old.capacity }
{
    for i in (0..node.count()).rev() {
        let branch = node.branch(i);
        if !region.meets(branch.low, branch.high) {
            continue;
        }
        let child = Ahead {
            page: branch.child,
            level: next.level - 1,
            parent: next.page,
        };
        test_live(pages, child)?;
        ahead.push_reserved(child);
    }
    Ok(())
}
