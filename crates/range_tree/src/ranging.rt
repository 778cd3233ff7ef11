//! Ranges over a shelf.
ghost use Rattle.std.specs.Prelude.{◌≡◌, ◌+◌, ◌-◌, ◌^◌, ◌<◌, IsTrue, IfOk, OnOk, List, length, map};
ghost use Rattle.metric_laws.specs.Calls.{RulerContinues};
ghost use Rattle.metric_laws.specs.Log.{LogExtends, each_with};
ghost use Rattle.page_laws.specs.Errors.{CountsTreeFault, IsNotDamaged};
ghost use Rattle.page_laws.specs.Pages.{is_live, count_after};
ghost use Rattle.bptree_node.specs.Trees.{visited_at};
ghost use Rattle.box_corner.specs.Shelves.{Held, AreMeasured, row_of};
ghost use Rattle.spb_defs.specs.Pivots.{vector_of};
ghost use Rattle.spb_defs.specs.Scans.{range_answer, range_visits};
ghost use Rattle.query_shelf.specs.Regions.{meets_box};
ghost use Rattle.query_shelf.specs.Shelved.{CanAsk, Shelves, ShelfStays, root_of};
ghost use Rattle.range_tree.specs.Ranges.{TellsRange, NamesRangeRule, entries_in_range};

use crate::pass::found_within;
use answer_lists::arrange_ids;
use curve_laws::Curve;
use metric_laws::Ruler;
use object_file::Shelf;
use page_laws::Pages;
use pivot_map::{Ids, map_object};
use query_shelf::{QueryError, ranges_cover_their_keys};
use range_entries::RangeRequest;
use spb_defs::RangeAnswer;
use std::alloc::Global;

/// The objects of a collection within the radius `r` of the query, exactly as a scan of all of them would
/// find them.
///
/// It measures the query with each pivot, and then with the objects that the pivots leave open, in the
/// order of the collection's curve tree. It fetches the root and below each node that it visits the
/// children whose boxes meet the query, each once, and one page for each object that it measures, and
/// takes memory for the ids and one object. The shelf stays as it was, whatever it answers.
///
/// A shelf that holds the collection is never damaged. Else Damaged names a page that was read and isn't
/// a node of its level (`node`), one that names a child that isn't live (`page`; page 1 for the root), or
/// what is wrong with an entry that was read: page 1 if its key is none of the curve (`key`) or its slot
/// is free (`slot`), and the slot's page if that doesn't hold the entry's object (`slot`). A fault comes
/// only as the pages answer it.
pub fn range<P: Pages, C: Curve, R: Ruler>(
    alloc: Global,
    shelf: &mut Shelf<'_, P, C>,
    collection: u8,
    ruler: &mut R,
    q: &[u8],
    r: u32,
) -> Result<RangeAnswer, QueryError>
    requires query { R.admitted (R.kind ruler.old) q.now }
    requires shelf { CanAsk P.Pages C.Curve (R.admitted (R.kind ruler.old)) shelf.old }
    requires collection { collection < 4 }
    requires room { R.count ruler.old < 2 ^ 63 }
    ensures answer { (held : List Held) → IsTrue (P.is_known shelf.old.pages.now) → Shelves P.Pages C.Curve shelf.old collection held
        → AreMeasured (R.admitted (R.kind ruler.old)) (R.dist (R.kind ruler.old)) shelf.old.pivots.now held
        → IfOk result (λ answer. answer ≡ range_answer (R.dist (R.kind ruler.old)) shelf.old.pivots.now (map row_of held) q.now r) }
    ensures log { (held : List Held) → IsTrue (P.is_known shelf.old.pages.now) → Shelves P.Pages C.Curve shelf.old collection held
        → AreMeasured (R.admitted (R.kind ruler.old)) (R.dist (R.kind ruler.old)) shelf.old.pivots.now held
        → OnOk result (LogExtends (R.log ruler.old) (R.log ruler.new) (each_with q.now (range_visits (R.dist (R.kind ruler.old)) shelf.old.pivots.now (map row_of held) q.now r))) }
    ensures sound { (held : List Held) → IsTrue (P.is_known shelf.old.pages.now) → Shelves P.Pages C.Curve shelf.old collection held
        → AreMeasured (R.admitted (R.kind ruler.old)) (R.dist (R.kind ruler.old)) shelf.old.pivots.now held → IsNotDamaged result }
    ensures fetches { IsTrue (P.is_known shelf.old.pages.now)
        → IfOk result (λ answer. P.fetches shelf.new.pages.now ≡ count_after (P.fetches shelf.old.pages.now)
        (visited_at (meets_box (C.axes shelf.old.curve.now) (C.bits shelf.old.curve.now) (C.cell_of shelf.old.curve.now) (vector_of (R.dist (R.kind ruler.old)) shelf.old.pivots.now q.now) r) (P.page_at shelf.old.pages.now) (root_of P.Pages C.Curve shelf.old collection)
        + (answer.evals - length shelf.old.pivots.now))) }
    ensures count { IfOk result (λ answer. R.count ruler.new ≡ R.count ruler.old + answer.evals) }
    ensures ruler { RulerContinues R.kind R.count ruler.old ruler.new }
    ensures damage { IsTrue (P.is_known shelf.old.pages.now)
        → TellsRange (R.admitted (R.kind ruler.old)) (C.axes shelf.old.curve.now) (C.bits shelf.old.curve.now) shelf.old.objects.now (P.page_at shelf.old.pages.now) (is_live (P.in_pool shelf.old.pages.now) (P.free shelf.old.pages.now)) collection (root_of P.Pages C.Curve shelf.old collection)
        (entries_in_range (C.axes shelf.old.curve.now) (C.bits shelf.old.curve.now) (C.cell_of shelf.old.curve.now) (vector_of (R.dist (R.kind ruler.old)) shelf.old.pivots.now q.now) r (P.page_at shelf.old.pages.now) (root_of P.Pages C.Curve shelf.old collection)) result }
    ensures names { NamesRangeRule shelf.old.objects.now result }
    ensures stays { ShelfStays P.Pages C.Curve shelf.old shelf.new }
    ensures fault { CountsTreeFault result (P.faults shelf.old.pages.now) (P.faults shelf.new.pages.now) }
{
    ranges_cover_their_keys(shelf.curve);
    let asked = map_object(ruler, shelf.pivots, q);
    let request = RangeRequest {
        objects: shelf.objects,
        curve: shelf.curve,
        collection,
        asked: &asked,
        q,
        r,
    };
    let root = shelf.roots[usize::from(collection)];
    let mut found = found_within(alloc, &mut *shelf.pages, root, &request, ruler)?;
    arrange_ids(&mut found.kept);
    Ok(RangeAnswer {
        ids: Ids::from(found.kept),
        evals: shelf.pivots.len() as u64 + found.evals,
        sure: found.sure,
    })
}
