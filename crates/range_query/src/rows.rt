//! Ranges over rows.
ghost use Rattle.metric_laws.specs.Calls.{RulerContinues};
ghost use Rattle.std.specs.Prelude.{◌≡◌, ℕ, ◌+◌, ◌^◌, ◌<◌, ◌≤◌, IfOk, OnOk};
ghost use Rattle.metric_laws.specs.Log.{LogExtends, each_with};
ghost use Rattle.spb_defs.specs.Scans.{range_answer, range_visits};
ghost use Rattle.pivot_map.specs.Rows.{ArePivots, AreRows, entries_of};

use answer_lists::arrange_ids;
use metric_laws::Ruler;
use pivot_map::{Ids, Row, map_object, test_query};
use query_pass::{Found, judge_by};
use spb_defs::RangeAnswer;
use spb_edge::{Bytes, Memory};
use std::alloc::Global;

/// The rows within the radius `r` of the query, exactly as a scan of all rows would find them.
///
/// It measures the query with each pivot, and then with the objects that the pivots leave open, in the order of the
/// rows. It needs at most 8 pivots and 2^31 rows by them, no two with the same id. It passes over the rows once, and
/// takes memory for the answer alone.
pub fn range_rows<R: Ruler>(
    alloc: Global,
    rows: &[Row],
    pivots: &[Bytes],
    ruler: &mut R,
    q: &[u8],
    r: u32,
) -> Result<RangeAnswer, Memory>
    requires query { R.admitted (R.kind ruler.old) q.now }
    requires pivots { ArePivots (R.admitted (R.kind ruler.old)) pivots.now }
    requires rows { AreRows (R.admitted (R.kind ruler.old)) (R.dist (R.kind ruler.old)) pivots.now rows.now }
    requires room { R.count ruler.old < 2 ^ 63 }
    ensures answer { IfOk result (λ answer. answer ≡ range_answer (R.dist (R.kind ruler.old)) pivots.now (entries_of rows.now) q.now r) }
    ensures count { IfOk result (λ answer. R.count ruler.new ≡ R.count ruler.old + answer.evals) }
    ensures ruler { RulerContinues R.kind R.count ruler.old ruler.new }
    ensures log { OnOk result (LogExtends (R.log ruler.old) (R.log ruler.new)
        (each_with q.now (range_visits (R.dist (R.kind ruler.old)) pivots.now (entries_of rows.now) q.now r))) }
{
    let asked = map_object(ruler, pivots, q);
    let mut found = Found::new(alloc);
    for row in rows {
        let test = test_query(&asked, &row.vect, r);
        let verdict = judge_by(ruler, test, q, row.object.as_slice(), r);
        found.note(row.id, verdict)?;
    }
    arrange_ids(&mut found.kept);
    Ok(RangeAnswer {
        ids: Ids::from(found.kept),
        evals: pivots.len() as u64 + found.evals,
        sure: found.sure,
    })
}
