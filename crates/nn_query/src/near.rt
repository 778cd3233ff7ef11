ghost use Rattle.metric_laws.specs.Calls.{RulerContinues};
ghost use Rattle.std.specs.Prelude.{◌≡◌, ◌+◌, ◌^◌, ◌<◌, ◌≤◌, IfOk, OnOk};
ghost use Rattle.metric_laws.specs.Log.{LogExtends, each_with};
ghost use Rattle.spb_defs.specs.Scans.{near_answer, near_visits};
ghost use Rattle.pivot_map.specs.Rows.{ArePivots, AreRows, entries_of};

use crate::listing::items_of_rows;
use crate::rows::Rows;
use metric_laws::Ruler;
use near_search::{Best, Queue, visit_in_order};
use pivot_map::{Row, map_object};
use spb_defs::NearAnswer;
use spb_edge::{Bytes, Memory};
use std::alloc::Global;

/// The `k` rows that are nearest to the query, or all if there are fewer, exactly as a scan of all rows would find
/// them: by distance, and of equal distances the lesser id first.
///
/// It measures the query with each pivot, and then with the objects in the order of their lower bounds, the lesser id
/// first, up to the last one that may still be among the nearest. It needs at most 8 pivots and 2^31 rows by them, no
/// two with the same id, and `k` of at least 1. It takes time in proportion to the rows, and the logarithm of them for
/// each that is looked at, and memory for the rows' bounds and for `k` ranks.
pub fn near_rows<R: Ruler>(
    alloc: Global,
    rows: &[Row],
    pivots: &[Bytes],
    ruler: &mut R,
    q: &[u8],
    k: u32,
) -> Result<NearAnswer, Memory>
    requires query { R.admitted (R.kind ruler.old) q.now }
    requires some { 1 ≤ k }
    requires pivots { ArePivots (R.admitted (R.kind ruler.old)) pivots.now }
    requires rows { AreRows (R.admitted (R.kind ruler.old)) (R.dist (R.kind ruler.old)) pivots.now rows.now }
    requires room { R.count ruler.old < 2 ^ 63 }
    ensures answer { IfOk result (λ answer. answer ≡ near_answer (R.dist (R.kind ruler.old)) pivots.now (entries_of rows.now) q.now k) }
    ensures count { IfOk result (λ answer. R.count ruler.new ≡ R.count ruler.old + answer.evals) }
    ensures log { OnOk result (LogExtends (R.log ruler.old) (R.log ruler.new)
        (each_with q.now (near_visits (R.dist (R.kind ruler.old)) pivots.now (entries_of rows.now) q.now k))) }
    ensures ruler { RulerContinues R.kind R.count ruler.old ruler.new }
{
    let asked = map_object(ruler, pivots, q);
    let items = items_of_rows(alloc, rows, &asked)?;
    let queue = Queue::of(items);
    let mut best = Best::new(alloc, k);
    let seen = visit_in_order(&mut Rows { rows }, queue, ruler, q, &mut best)?;
    Ok(NearAnswer {
        rows: best.into_ranks(),
        evals: pivots.len() as u64 + seen.measured,
    })
}
