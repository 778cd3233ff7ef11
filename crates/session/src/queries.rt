//! Queries over rows, with the state that they stand for as a premise: a session calls them on its own rows.
ghost use Rattle.metric_laws.specs.Calls.{RulerContinues};
ghost use Rattle.std.specs.Prelude.{◌≡◌, ◌+◌, ◌^◌, ◌<◌, ◌≤◌, true, IfOk};
ghost use Rattle.metrics_builtin.specs.declared.Space.{Space};
ghost use Rattle.spb_defs.specs.declared.Command.{Command};
ghost use Rattle.spb_defs.specs.MetricOf.{IsMetricOf};
ghost use Rattle.spb_defs.specs.State.{State, allows_joins};
ghost use Rattle.spb_defs.specs.Step.{reply_of, evals_of};
ghost use Rattle.cmd_grammar.specs.HoldsObject.{HoldsObject};
ghost use Rattle.pivot_map.specs.Rows.{ArePivots, AreRows};
ghost use Rattle.session.specs.Queries.{HoldsRows};

use cmd_grammar::Reply;
use metric_laws::Ruler;
use nn_query::near_rows;
use pivot_map::Row;
use range_query::{join_rows, range_rows};
use spb_edge::{Bytes, Memory};
use std::alloc::Global;

/// The reply to a range query of collection `c`, whose rows these are.
///
/// # Errors
///
/// [`Memory`] if it runs out; the ruler may have measured by then.
pub(crate) fn range_of<R: Ruler>(
    alloc: Global,
    rows: &[Row],
    pivots: &[Bytes],
    ruler: &mut R,
    c: u8,
    radius: u32,
    query: &Bytes,
) -> Result<Reply, Memory>
    requires query { R.admitted (R.kind ruler.old) query.now }
    requires pivots { ArePivots (R.admitted (R.kind ruler.old)) pivots.now }
    requires rows { AreRows (R.admitted (R.kind ruler.old)) (R.dist (R.kind ruler.old)) pivots.now rows.now }
    requires room { R.count ruler.old < 2 ^ 63 }
    ensures reply { (s : State) → IsMetricOf (R.admitted (R.kind ruler.old)) (R.dist (R.kind ruler.old)) s.space → HoldsRows s c pivots.now rows.now
        → IfOk result (λ said. said ≡ reply_of s (Command.Range c radius query.now)) }
    ensures object { (space : Space) → IfOk result (λ said. HoldsObject space said) }
    ensures count { IfOk result (λ said. R.count ruler.new ≡ R.count ruler.old + evals_of said) }
    ensures ruler { RulerContinues R.kind R.count ruler.old ruler.new }
{
    let found = range_rows(alloc, rows, pivots, ruler, query.as_slice(), radius)?;
    Ok(Reply::Range {
        ids: found.ids,
        evals: found.evals,
        sure: found.sure,
    })
}

/// The reply to a query for the `k` nearest of collection `c`, whose rows these are.
///
/// # Errors
///
/// [`Memory`] if it runs out; the ruler may have measured by then.
pub(crate) fn near_of<R: Ruler>(
    alloc: Global,
    rows: &[Row],
    pivots: &[Bytes],
    ruler: &mut R,
    c: u8,
    k: u32,
    query: &Bytes,
) -> Result<Reply, Memory>
    requires query { R.admitted (R.kind ruler.old) query.now }
    requires some { 1 ≤ k }
    requires pivots { ArePivots (R.admitted (R.kind ruler.old)) pivots.now }
    requires rows { AreRows (R.admitted (R.kind ruler.old)) (R.dist (R.kind ruler.old)) pivots.now rows.now }
    requires room { R.count ruler.old < 2 ^ 63 }
    ensures reply { (s : State) → IsMetricOf (R.admitted (R.kind ruler.old)) (R.dist (R.kind ruler.old)) s.space → HoldsRows s c pivots.now rows.now
        → IfOk result (λ said. said ≡ reply_of s (Command.Near c k query.now)) }
    ensures object { (space : Space) → IfOk result (λ said. HoldsObject space said) }
    ensures count { IfOk result (λ said. R.count ruler.new ≡ R.count ruler.old + evals_of said) }
    ensures ruler { RulerContinues R.kind R.count ruler.old ruler.new }
{
    let found = near_rows(alloc, rows, pivots, ruler, query.as_slice(), k)?;
    Ok(Reply::Near {
        rows: found.rows,
        evals: found.evals,
    })
}

/// The reply to a join of collections `c` and `d`, whose rows these are, the same ones if `c` is `d`. The
/// state's curve is one to join over.
///
/// # Errors
///
/// [`Memory`] if it runs out; the ruler may have measured by then.
pub(crate) fn join_of<R: Ruler>(
    alloc: Global,
    left: &[Row],
    right: &[Row],
    pivots: &[Bytes],
    ruler: &mut R,
    c: u8,
    d: u8,
    radius: u32,
) -> Result<Reply, Memory>
    requires pivots { ArePivots (R.admitted (R.kind ruler.old)) pivots.now }
    requires left { AreRows (R.admitted (R.kind ruler.old)) (R.dist (R.kind ruler.old)) pivots.now left.now }
    requires right { AreRows (R.admitted (R.kind ruler.old)) (R.dist (R.kind ruler.old)) pivots.now right.now }
    requires same { c ≡ d → left.now ≡ right.now }
    requires room { R.count ruler.old < 2 ^ 63 }
    ensures reply { (s : State) → IsMetricOf (R.admitted (R.kind ruler.old)) (R.dist (R.kind ruler.old)) s.space → allows_joins s.curve ≡ true
        → HoldsRows s c pivots.now left.now → HoldsRows s d pivots.now right.now
        → IfOk result (λ said. said ≡ reply_of s (Command.Join c d radius)) }
    ensures object { (space : Space) → IfOk result (λ said. HoldsObject space said) }
    ensures count { IfOk result (λ said. R.count ruler.new ≡ R.count ruler.old + evals_of said) }
    ensures ruler { RulerContinues R.kind R.count ruler.old ruler.new }
{
    let found = join_rows(alloc, left, right, pivots, c == d, ruler, radius)?;
    Ok(Reply::Join {
        pairs: found.pairs,
        evals: found.evals,
        sure: found.sure,
    })
}
