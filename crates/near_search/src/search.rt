//! The search.
ghost use Rattle.metric_laws.specs.Calls.{RulerContinues};
ghost use Rattle.std.specs.Prelude.{◌≡◌, [], ◌+◌, ◌^◌, ◌<◌, ◌≤◌, ◌⊎◌, IsTrue, take, sum_by, IfOk, IfErr};
ghost use Rattle.std.specs.List.{AllByRecursion};
ghost use Rattle.metric_laws.specs.Log.{LogExtends, each_with};
ghost use Rattle.near_search.specs.Items.{items_of};
ghost use Rattle.near_search.specs.Least.{least_of};
ghost use Rattle.near_search.specs.Queue.{weight_of, most_of, queued_candidates};
ghost use Rattle.near_search.specs.Visits.{objects_at, CanVisit, AreBounds, Visited, nodes_in_reach};

use crate::best::Best;
use crate::hierarchy::Hierarchy;
use crate::queue::{Kind, Queue};
use metric_laws::Ruler;

/// What a search looked at.
#[derive(Drop)]
pub struct VisitCount {
    /// How many objects were measured.
    pub measured: u64,
    /// How many nodes were opened.
    pub opened: u64,
}

/// Takes the items of the queue in order, nodes before objects of the same bound, up to the first that the best so far
/// prune: it opens nodes into the queue, and measures objects and puts their ranks among the best. It counts what it
/// looked at. Its clauses say what it found if what is held is known and no bound is too great. Whatever is held, it
/// ends, and measures no more objects than may be under the items. Its errors are those of `held`, and want of memory
/// for the best. A step takes the time of a step in a heap, and what `held` takes.
pub fn visit_in_order<H: Hierarchy, R: Ruler>(
    held: &mut H,
    mut queue: Queue,
    ruler: &mut R,
    q: &[u8],
    best: &mut Best,
) -> Result<VisitCount, H::Error>
    requires query { R.admitted (R.kind ruler.old) q.now }
    requires items { AllByRecursion (CanVisit (H.can_open (H.content held.old)) (H.can_measure (H.content held.old))) (items_of queue) }
    requires objects { H.suits (H.content held.old) (R.admitted (R.kind ruler.old)) }
    requires few { sum_by (weight_of (H.nodes (H.content held.old))) (items_of queue) ≤ 2 ^ 31 }
    requires room { R.count ruler.old < 2 ^ 63 + 8 }
    requires none { least_of best.old ≡ [] }
    ensures visited { IfOk result (λ seen. IsTrue (H.is_known (H.content held.old)) →
        AreBounds (R.dist (R.kind ruler.old)) (H.object_at (H.content held.old)) q.now (H.nodes (H.content held.old)) (H.is_sound (H.content held.old))
        (items_of queue)
        → Visited (R.dist (R.kind ruler.old)) (H.object_at (H.content held.old)) q.now (queued_candidates (H.nodes (H.content held.old)) (items_of queue))
        best.old.most seen.measured (least_of best.new)) }
    ensures opened { IfOk result (λ seen. IsTrue (H.is_known (H.content held.old)) →
        AreBounds (R.dist (R.kind ruler.old)) (H.object_at (H.content held.old)) q.now (H.nodes (H.content held.old)) (H.is_sound (H.content held.old))
        (items_of queue)
        → seen.opened ≡ nodes_in_reach (R.dist (R.kind ruler.old)) (H.object_at (H.content held.old)) q.now (H.nodes (H.content held.old)) best.old.most
        (items_of queue)) }
    ensures log { IfOk result (λ seen. IsTrue (H.is_known (H.content held.old)) →
        AreBounds (R.dist (R.kind ruler.old)) (H.object_at (H.content held.old)) q.now (H.nodes (H.content held.old)) (H.is_sound (H.content held.old))
        (items_of queue)
        → LogExtends (R.log ruler.old) (R.log ruler.new)
        (each_with q.now (objects_at (H.object_at (H.content held.old))
        (take seen.measured (queued_candidates (H.nodes (H.content held.old)) (items_of queue)))))) }
    ensures few { IfOk result (λ seen. seen.measured ≤ sum_by (most_of (H.nodes (H.content held.old))) (items_of queue)) }
    ensures count { IfOk result (λ seen. R.count ruler.new ≡ R.count ruler.old + seen.measured) }
    ensures ruler { RulerContinues R.kind R.count ruler.old ruler.new }
    ensures follows { IfOk result (λ seen. H.Follows (seen.measured + seen.opened) held.old held.new) }
    ensures fails { IfErr result (λ e. H.Fails e held.old held.new) }
    ensures tells { IfErr result (λ e. H.TellsOfNode (H.content held.old) e ⊎ H.TellsOfObject (H.content held.old) (R.admitted (R.kind ruler.old)) e) }
{
    let mut seen = VisitCount {
        measured: 0,
        opened: 0,
    };
    while let Some(first) = queue.next() {
        if best.shuts_out(first.key()) {
            return Ok(seen);
        }
        match first.kind {
            Kind::Node { level } => {
                held.open(level, first.place, best, &mut queue)?;
                seen.opened += 1;
            }
            Kind::Object { id } => {
                let distance = held.measure(id, first.place, ruler, q)?;
                seen.measured += 1;
                if let Err(memory) = best.put((distance, id)) {
                    return Err(held.out_of_memory(memory));
                }
            }
        }
    }
    Ok(seen)
}
