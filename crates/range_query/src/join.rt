//! Joins of rows.
ghost use Rattle.metric_laws.specs.Calls.{RulerContinues};
ghost use Rattle.std.specs.Prelude.{length, ◌≤◌, ◌≡◌, ℕ, ◌+◌, ◌^◌, ◌<◌, true, IfOk, OnOk};
ghost use Rattle.metric_laws.specs.Log.{LogExtendsInAnyOrder};
ghost use Rattle.spb_defs.specs.Scans.{considered_pairs, join_answer, join_visits};
ghost use Rattle.query_pass.specs.Findings.{PassesOver, MeasuresOpen};
ghost use Rattle.query_pass.specs.Pairs.{verdict_of_pair, pair_ids, pair_objects, ordered_pair};
ghost use Rattle.range_query.specs.Passes.{AreAlike, pairs_of, partners_of};
ghost use Rattle.pivot_map.specs.Rows.{ArePivots, AreRows, entries_of};

use answer_lists::arrange;
use metric_laws::Ruler;
use pivot_map::{Pairs, Row, test_pair};
use query_pass::{Found, judge_by};
use spb_defs::JoinAnswer;
use spb_edge::{Bytes, Memory};
use std::alloc::Global;

/// The pairs of a row on the left and one on the right whose objects are within the radius `r` of each other, exactly
/// as a scan of all pairs would find them. If `same` is true both sides are one list, and of each two rows the one with
/// the lesser id is on the left.
///
/// It measures the pairs that the pivots leave open. It needs at most 8 pivots, and on each side at most 2^31 rows by
/// them, no two with the same id. It tests the vectors of each pair of rows once, and takes memory for the answer
/// alone.
pub fn join_rows<R: Ruler>(
    alloc: Global,
    left: &[Row],
    right: &[Row],
    pivots: &[Bytes],
    same: bool,
    ruler: &mut R,
    r: u32,
) -> Result<JoinAnswer, Memory>
    requires pivots { ArePivots (R.admitted (R.kind ruler.old)) pivots.now }
    requires left { AreRows (R.admitted (R.kind ruler.old)) (R.dist (R.kind ruler.old)) pivots.now left.now }
    requires right { AreRows (R.admitted (R.kind ruler.old)) (R.dist (R.kind ruler.old)) pivots.now right.now }
    requires same { same ≡ true → left.now ≡ right.now }
    requires room { R.count ruler.old < 2 ^ 63 }
    ensures answer { IfOk result (λ answer. answer
        ≡ join_answer (R.dist (R.kind ruler.old)) pivots.now (considered_pairs same (entries_of left.now) (entries_of right.now)) r) }
    ensures count { IfOk result (λ answer. R.count ruler.new ≡ R.count ruler.old + answer.evals) }
    ensures ruler { RulerContinues R.kind R.count ruler.old ruler.new }
    ensures log { OnOk result (LogExtendsInAnyOrder (R.log ruler.old) (R.log ruler.new)
        (join_visits (R.dist (R.kind ruler.old)) pivots.now (considered_pairs same (entries_of left.now) (entries_of right.now)) r)) }
{
    let mut found = Found::new(alloc);
    for i in 0..left.len() {
        let others = partners(right, same, i + 1);
        pair_up(ruler, &left[i], others, same, r, &mut found)?;
    }
    arrange(&mut found.kept);
    Ok(JoinAnswer {
        pairs: Pairs::from(found.kept),
        evals: found.evals,
        sure: found.sure,
    })
}

/// The rows that the row before place `next` is paired with.
fn partners(right: &[Row], same: bool, next: usize) -> &[Row]
    requires { same ≡ true → next ≤ length right.now }
    ensures { result.now ≡ partners_of same right.now next }
{
    if same { &right[next..] } else { right }
}

/// Passes over the pairs of the row with each of the others; if `same` is true, with the lesser id on the left.
fn pair_up<R: Ruler>(
    ruler: &mut R,
    row: &Row,
    others: &[Row],
    same: bool,
    r: u32,
    found: &mut Found<(u32, u32)>,
) -> Result<(), Memory>
    requires row { R.admitted (R.kind ruler.old) row.now.object }
    requires others { AreAlike (R.admitted (R.kind ruler.old)) (length row.now.vect) others.now }
    requires room { R.count ruler.old + length others.now < 2 ^ 64 }
    requires evals { found.old.evals + length others.now < 2 ^ 64 }
    requires sure { found.old.sure + length others.now < 2 ^ 64 }
    ensures found { OnOk result (PassesOver (verdict_of_pair (R.dist (R.kind ruler.old)) r) pair_ids (pairs_of same others.now row.now) found.old found.new) }
    ensures measured { OnOk result (MeasuresOpen (verdict_of_pair (R.dist (R.kind ruler.old)) r) pair_objects (pairs_of same others.now row.now)
        (R.count ruler.old) (R.log ruler.old) (R.count ruler.new) (R.log ruler.new)) }
    ensures ruler { RulerContinues R.kind R.count ruler.old ruler.new }
{
    for other in others {
        let (first, second) = in_order(row, other, same);
        let test = test_pair(&first.vect, &second.vect, r);
        let verdict = judge_by(
            ruler,
            test,
            first.object.as_slice(),
            second.object.as_slice(),
            r,
        );
        found.note((first.id, second.id), verdict)?;
    }
    Ok(())
}

/// The two rows; if `same` is true, with the lesser id on the left.
fn in_order<'a>(row: &'a Row, other: &'a Row, same: bool) -> (&'a Row, &'a Row)
    ensures { (result.0.now, result.1.now) ≡ ordered_pair same row.now other.now }
{
    if same && other.id < row.id {
        return (other, row);
    }
    (row, other)
}
