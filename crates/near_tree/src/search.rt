//! The search.
ghost use Rattle.std.specs.Prelude.{◌≡◌, ◌+◌, ◌^◌, ◌<◌, ◌≤◌, take, IfOk, IfErr};
ghost use Rattle.metric_laws.specs.Calls.{RulerContinues};
ghost use Rattle.metric_laws.specs.Log.{LogExtends, each_with};
ghost use Rattle.bptree_node.specs.declared.layout.TheConstants.{HEIGHT_LIMIT};
ghost use Rattle.near_search.specs.Visits.{objects_at, Visited};
ghost use Rattle.shelf_tree.specs.Contents.{content_of, object_at_slot};
ghost use Rattle.shelf_tree.specs.Breaches.{IsReady};
ghost use Rattle.shelf_tree.specs.TreeCalls.{Follows, Fails};
ghost use Rattle.near_tree.specs.Searches.{tree_candidates, opened_nodes, HasBounds, TellsOfSearch};

use crate::root::queue_of_root;
use answer_lists::Ranks;
use curve_laws::Curve;
use metric_laws::Ruler;
use near_search::{Best, visit_in_order};
use page_laws::Pages;
use query_shelf::QueryError;
use shelf_tree::CurveTree;
use std::alloc::Global;

/// What a search found: the ranks of the nearest, how many objects it measured, and how many nodes it
/// opened.
#[derive(Drop)]
pub struct Nearest {
    /// The distances and ids of the nearest.
    pub ranks: Ranks,
    /// How many objects were measured.
    pub measured: u64,
    /// How many nodes were opened.
    pub opened: u64,
}

/// The `k` nearest of the objects under the root of the tree, or all if there are fewer.
///
/// It opens the nodes and measures the objects in the order of their bounds, nodes first and objects by
/// their ids, up to the first bound that the k nearest so far prune. Whatever the pages hold, it measures
/// at most 1152480 objects. A fault or damage comes from opening a node or measuring an object, or if the
/// root isn't live, by page 1 and the rule `page`. It takes memory for what waits and for `k` ranks.
pub fn search_tree<P: Pages, C: Curve, R: Ruler>(
    alloc: Global,
    tree: &mut CurveTree<'_, P, C>,
    ruler: &mut R,
    q: &[u8],
    k: u32,
) -> Result<Nearest, QueryError>
    requires query { R.admitted (R.kind ruler.old) q.now }
    requires height { tree.old.root.height ≤ HEIGHT_LIMIT }
    requires ready { IsReady (content_of P.Pages C.Curve tree.old) }
    requires room { R.count ruler.old < 2 ^ 63 + 8 }
    ensures few { IfOk result (λ found. found.measured ≤ 1152480) }
    ensures count { IfOk result (λ found. R.count ruler.new ≡ R.count ruler.old + found.measured) }
    ensures ruler { RulerContinues R.kind R.count ruler.old ruler.new }
    ensures follows { IfOk result (λ found. Follows P.Pages (found.measured + found.opened) tree.old tree.new) }
    ensures fails { IfErr result (λ e. Fails P.Pages e tree.old tree.new) }
    ensures tells { IfErr result (TellsOfSearch (content_of P.Pages C.Curve tree.old) (R.admitted (R.kind ruler.old))) }
    ensures visited { IfOk result (λ found. HasBounds (R.dist (R.kind ruler.old)) q.now (content_of P.Pages C.Curve tree.old)
        → Visited (R.dist (R.kind ruler.old)) (object_at_slot (content_of P.Pages C.Curve tree.old)) q.now (tree_candidates (content_of P.Pages C.Curve tree.old))
        k found.measured found.ranks) }
    ensures opened { IfOk result (λ found. HasBounds (R.dist (R.kind ruler.old)) q.now (content_of P.Pages C.Curve tree.old)
        → found.opened ≡ opened_nodes (R.dist (R.kind ruler.old)) q.now (content_of P.Pages C.Curve tree.old) k) }
    ensures log { IfOk result (λ found. HasBounds (R.dist (R.kind ruler.old)) q.now (content_of P.Pages C.Curve tree.old)
        → LogExtends (R.log ruler.old) (R.log ruler.new)
        (each_with q.now (objects_at (object_at_slot (content_of P.Pages C.Curve tree.old))
        (take found.measured (tree_candidates (content_of P.Pages C.Curve tree.old)))))) }
{
    let queue = queue_of_root(alloc, &*tree)?;
    let mut best = Best::new(alloc, k);
    let seen = visit_in_order(tree, queue, ruler, q, &mut best)?;
    Ok(Nearest {
        ranks: best.into_ranks(),
        measured: seen.measured,
        opened: seen.opened,
    })
}
