//! A pass over the entries of a curve tree that a range may have.
ghost use Rattle.std.specs.Prelude.{◌≡◌, ◌+◌, ◌^◌, ◌≤◌, IsTrue, IfOk, OnOk};
ghost use Rattle.metric_laws.specs.Calls.{RulerContinues};
ghost use Rattle.metric_laws.specs.Log.{LogExtends};
ghost use Rattle.object_file.specs.ObjectFile.{HasSlots};
ghost use Rattle.page_laws.specs.Calls.{PagesStay};
ghost use Rattle.page_laws.specs.Errors.{CountsTreeFault};
ghost use Rattle.page_laws.specs.Pages.{is_live, count_after};
ghost use Rattle.bptree_node.specs.declared.layout.TheConstants.{HEIGHT_LIMIT};
ghost use Rattle.bptree_node.specs.Trees.{visited_at};
ghost use Rattle.bptree_walk.specs.Courses.{MOST_IN_TREE};
ghost use Rattle.query_shelf.specs.Regions.{meets_box};
ghost use Rattle.range_entries.specs.Entries.{verdict_at};
ghost use Rattle.range_tree.specs.Ranges.{FindsAmong, TellsRange, NamesRangeRule, entries_in_range, pairs_measured};

use bptree_walk::Cursor;
use curve_laws::Curve;
use metric_laws::Ruler;
use page_laws::{Pages, Root};
use query_pass::Found;
use query_shelf::{QueryError, QueryRegion};
use range_entries::RangeRequest;
use spb_edge::Bytes;
use std::alloc::Global;

/// What a range finds among the entries of the curve tree with this root: the ids of those within, in
/// the order of the tree, and how many were measured or sure. It visits each node once, reads the slots
/// of those alone that it measures, and takes memory for the ids and one object.
///
/// Damaged comes as a cursor answers it, and as the verdict on an entry does.
pub(crate) fn found_within<P: Pages, C: Curve, R: Ruler>(
    alloc: Global,
    pages: &mut P,
    root: Root,
    request: &RangeRequest<'_, C>,
    ruler: &mut R,
) -> Result<Found<u32>, QueryError>
    requires height { root.height ≤ HEIGHT_LIMIT }
    requires query { R.admitted (R.kind ruler.old) request.now.q.now }
    requires there { HasSlots (P.has pages.old) request.now.objects.now.cap }
    requires room { R.count ruler.old ≤ 2 ^ 63 + 8 }
    ensures found { IsTrue (P.is_known pages.old)
        → IfOk result (FindsAmong (verdict_at (R.dist (R.kind ruler.old)) (C.cell_of request.now.curve.now) request.now.asked.now request.now.q.now request.now.r (P.page_at pages.old))
        (entries_in_range (C.axes request.now.curve.now) (C.bits request.now.curve.now) (C.cell_of request.now.curve.now) request.now.asked.now request.now.r (P.page_at pages.old) root)) }
    ensures log { IsTrue (P.is_known pages.old)
        → OnOk result (LogExtends (R.log ruler.old) (R.log ruler.new)
        (pairs_measured (verdict_at (R.dist (R.kind ruler.old)) (C.cell_of request.now.curve.now) request.now.asked.now request.now.q.now request.now.r (P.page_at pages.old)) request.now.q.now
        (P.page_at pages.old)
        (entries_in_range (C.axes request.now.curve.now) (C.bits request.now.curve.now) (C.cell_of request.now.curve.now) request.now.asked.now request.now.r (P.page_at pages.old) root))) }
    ensures fetches { IsTrue (P.is_known pages.old)
        → IfOk result (λ found. P.fetches pages.new ≡ count_after (P.fetches pages.old)
        (visited_at (meets_box (C.axes request.now.curve.now) (C.bits request.now.curve.now) (C.cell_of request.now.curve.now) request.now.asked.now request.now.r) (P.page_at pages.old) root + found.evals)) }
    ensures few { IfOk result (λ found. found.evals ≤ MOST_IN_TREE) }
    ensures count { IfOk result (λ found. R.count ruler.new ≡ R.count ruler.old + found.evals) }
    ensures ruler { RulerContinues R.kind R.count ruler.old ruler.new }
    ensures damage { IsTrue (P.is_known pages.old)
        → TellsRange (R.admitted (R.kind ruler.old)) (C.axes request.now.curve.now) (C.bits request.now.curve.now) request.now.objects.now (P.page_at pages.old) (is_live (P.in_pool pages.old) (P.free pages.old)) request.now.collection root
        (entries_in_range (C.axes request.now.curve.now) (C.bits request.now.curve.now) (C.cell_of request.now.curve.now) request.now.asked.now request.now.r (P.page_at pages.old) root) result }
    ensures names { NamesRangeRule request.now.objects.now result }
    ensures stay { PagesStay P.is_known P.has P.in_pool P.page_at P.free P.is_open P.put_pages P.calm pages.old pages.new }
    ensures fault { CountsTreeFault result (P.faults pages.old) (P.faults pages.new) }
{
    let region = QueryRegion {
        curve: request.curve,
        asked: request.asked,
        r: request.r,
    };
    let mut object = Bytes::from(Vec::new(alloc));
    let mut found = Found::new(alloc);
    let mut cursor = Cursor::new(alloc)?;
    cursor.begin(root);
    while let Some(entry) = cursor.next_within(pages, &region)? {
        let verdict = request.judge(pages, &entry, ruler, &mut object)?;
        found.note(entry.id, verdict)?;
    }
    Ok(found)
}
