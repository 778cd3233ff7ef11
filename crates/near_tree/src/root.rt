//! Where a search begins.
ghost use Rattle.std.specs.Prelude.{◌≤◌, MatchResult};
ghost use Rattle.bptree_node.specs.declared.layout.TheConstants.{HEIGHT_LIMIT};
ghost use Rattle.near_search.specs.Items.{items_of};
ghost use Rattle.shelf_tree.specs.Contents.{content_of};
ghost use Rattle.near_tree.specs.Roots.{IsRootQueue, IsRootCause};

use curve_laws::Curve;
use near_search::{Kind, Queue, Waiting};
use page_laws::{Pages, Rule};
use query_shelf::QueryError;
use shelf_tree::CurveTree;
use std::alloc::Global;

/// The queue with the root, whose bound is 0; the empty tree has none. Damaged by page 1 and the rule
/// `page` if the root isn't live.
pub(crate) fn queue_of_root<P: Pages, C: Curve>(
    alloc: Global,
    tree: &CurveTree<'_, P, C>,
) -> Result<Queue, QueryError>
    requires height { tree.now.root.height ≤ HEIGHT_LIMIT }
    ensures { MatchResult result (λ queue. IsRootQueue (content_of P.Pages C.Curve tree.now) (items_of queue)) (IsRootCause (content_of P.Pages C.Curve tree.now)) }
{
    let mut queue = Queue::of(Vec::new(alloc));
    if tree.root.height == 0 {
        return Ok(queue);
    }
    if !tree.pages.is_live(tree.root.page) {
        return Err(QueryError::Damaged {
            page: 1,
            rule: Rule::Page,
        });
    }
    queue.put(Waiting {
        bound: 0,
        kind: Kind::Node {
            level: tree.root.height - 1,
        },
        place: tree.root.page,
    })?;
    Ok(queue)
}
