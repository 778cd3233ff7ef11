//! The rows of a node as items of the queue.
ghost use Rattle.std.specs.Prelude.{◌≡◌, ◌-◌, ◌<◌, ◌==◌, false, length, IsTrue, OnOk, Some, MatchResult};
ghost use Rattle.page_laws.specs.declared.errors.TreeError.TheVariants as tree;
ghost use Rattle.page_laws.specs.declared.rule.Rule.TheVariants as rule;
ghost use Rattle.bptree_node.specs.Nodes.{node_in, is_leaf, entries_of, branches_of};
ghost use Rattle.bptree_walk.specs.Damage.{is_node_of};
ghost use Rattle.near_search.specs.Items.{items_of};
ghost use Rattle.near_search.specs.Least.{least_of};
ghost use Rattle.shelf_tree.specs.Contents.{content_of, entry_item, branch_item};
ghost use Rattle.shelf_tree.specs.Putting.{IsOffered, ArePutIn, IsRowCause, BreaksEntry, BreaksBranch, HasFilledSlot, HasLiveChild};

use crate::{CurveTree, QueryError};
use box_corner::CurveBoxes;
use bptree_node::{Boxes, Branch, Entry, NodeView, read_node};
use curve_laws::Curve;
use near_search::{Best, Kind, Queue, Waiting};
use page_laws::{PAGE_SIZE, Pages, Rule};
use pivot_map::lower;
use spb_edge::Memory;

/// The node that page `n` is. Damaged, and names it, exactly if it isn't one of this level.
pub(crate) fn read_level(
    page: &[u8; PAGE_SIZE],
    level: u8,
    n: u32,
) -> Result<NodeView<'_>, QueryError>
    ensures { MatchResult result
        (λ node. (node_in page.now ≡ Some node) × (is_leaf node ≡ (level == 0)))
        (λ e. (e ≡ tree.Damaged n rule.Node) × (is_node_of level (node_in page.now) ≡ false)) }
{
    match read_node(page) {
        Ok(node) if node.is_leaf() == (level == 0) => Ok(node),
        _ => Err(damaged(n, Rule::Node)),
    }
}

/// Puts the item into the queue, unless the best so far prune it.
fn offer(item: Waiting, best: &Best, queue: &mut Queue) -> Result<(), Memory>
    ensures { OnOk result (IsOffered best.now.most (least_of best.now) item (items_of queue.old) (items_of queue.new)) }
{
    if best.shuts_out(item.key()) {
        return Ok(());
    }
    queue.put(item)?;
    Ok(())
}

impl<'a, P: Pages, C: Curve> CurveTree<'a, P, C> {
    /// Puts the objects of a leaf into the queue, but for those that the best so far prune.
    ///
    /// Damaged, and names the leaf's page `n`, if an entry's key is none of the curve or its slot is free.
    pub(crate) fn put_objects(
        &self,
        leaf: &NodeView,
        n: u32,
        best: &Best,
        queue: &mut Queue,
    ) -> Result<(), QueryError>
        requires leaf { IsTrue (is_leaf leaf.now) }
        requires axes { length self.now.asked.now ≡ C.axes self.now.curve.now }
        ensures { MatchResult result
            (λ _. ArePutIn best.now.most (least_of best.now) (entry_item (content_of P.Pages C.Curve self.now)) (HasFilledSlot (content_of P.Pages C.Curve self.now))
            (entries_of leaf.now) (items_of queue.old) (items_of queue.new))
            (IsRowCause (BreaksEntry (content_of P.Pages C.Curve self.now) n) (entries_of leaf.now)) }
    {
        for i in 0..leaf.count() {
            let item = self.object_item(leaf.entry(i), n)?;
            offer(item, best, queue)?;
        }
        Ok(())
    }

    /// Puts the children of an inner node into the queue, but for those that the best so far prune.
    ///
    /// Damaged, and names the node's page `n`, if the corners of a branch are those of no box or its child
    /// isn't live.
    pub(crate) fn put_children(
        &self,
        node: &NodeView,
        level: u8,
        n: u32,
        best: &Best,
        queue: &mut Queue,
    ) -> Result<(), QueryError>
        requires inner { is_leaf node.now ≡ false }
        requires level { 0 < level }
        requires axes { length self.now.asked.now ≡ C.axes self.now.curve.now }
        ensures { MatchResult result
            (λ _. ArePutIn best.now.most (least_of best.now) (branch_item (content_of P.Pages C.Curve self.now) (level - 1)) (HasLiveChild (content_of P.Pages C.Curve self.now))
            (branches_of node.now) (items_of queue.old) (items_of queue.new))
            (IsRowCause (BreaksBranch (content_of P.Pages C.Curve self.now) n) (branches_of node.now)) }
    {
        for i in 0..node.count() {
            let item = self.child_item(node.branch(i), level, n)?;
            offer(item, best, queue)?;
        }
        Ok(())
    }

    /// The object that an entry of page `n` names, with the lower bound of its cell.
    fn object_item(&self, entry: Entry, n: u32) -> Result<Waiting, QueryError>
        requires axes { length self.now.asked.now ≡ C.axes self.now.curve.now }
        ensures { MatchResult result
            (λ item. (item ≡ entry_item (content_of P.Pages C.Curve self.now) entry) × HasFilledSlot (content_of P.Pages C.Curve self.now) entry)
            (BreaksEntry (content_of P.Pages C.Curve self.now) n entry) }
    {
        if !self.curve.has_key(entry.key) {
            return Err(damaged(n, Rule::Key));
        }
        if !self.objects.is_filled(entry.slot) {
            return Err(damaged(n, Rule::Slot));
        }
        Ok(Waiting {
            bound: lower(self.asked, &self.curve.cell(entry.key)),
            kind: Kind::Object { id: entry.id },
            place: entry.slot,
        })
    }

    /// The child of a branch of page `n`, at this level, with the bound of its box.
    fn child_item(&self, branch: Branch, level: u8, n: u32) -> Result<Waiting, QueryError>
        requires level { 0 < level }
        requires axes { length self.now.asked.now ≡ C.axes self.now.curve.now }
        ensures { MatchResult result
            (λ item. (item ≡ branch_item (content_of P.Pages C.Curve self.now) (level - 1) branch) × HasLiveChild (content_of P.Pages C.Curve self.now) branch)
            (BreaksBranch (content_of P.Pages C.Curve self.now) n branch) }
    {
        let boxes = CurveBoxes { curve: self.curve };
        let Some(corners) = boxes.of_branch(branch.low, branch.high) else {
            return Err(damaged(n, Rule::Box));
        };
        if !self.pages.is_live(branch.child) {
            return Err(damaged(n, Rule::Page));
        }
        Ok(Waiting {
            bound: corners.lower_bound(self.asked),
            kind: Kind::Node { level: level - 1 },
            place: branch.child,
        })
    }
}

/// That page `n` breaks a rule.
fn damaged(n: u32, rule: Rule) -> QueryError
    ensures { result ≡ tree.Damaged n rule }
{
    QueryError::Damaged { page: n, rule }
}
