//! Queries over a store in a file.
ghost use Rattle.std.specs.Prelude.{◌≡◌, ◌+◌, ◌^◌, ◌<◌, ◌≤◌, Some, IfOk};
ghost use Rattle.metric_laws.specs.Calls.{RulerContinues};
ghost use Rattle.metrics_builtin.specs.Space.{IsValid};
ghost use Rattle.spb_defs.specs.declared.Command.{Command};
ghost use Rattle.spb_defs.specs.MetricOf.{IsMetricOf};
ghost use Rattle.spb_defs.specs.State as state;
ghost use Rattle.spb_defs.specs.State.{State};
ghost use Rattle.spb_defs.specs.Step.{reply_of, evals_of};
ghost use Rattle.cmd_grammar.specs.HoldsObject.{HoldsObject};
ghost use Rattle.open_store.specs.Store.{IsInState};
ghost use Rattle.session.specs.FileSession.{HasMetric};

use crate::queries::{join_of, near_of, range_of};
use cmd_grammar::Reply;
use metric_laws::{Metric, Ruler};
use open_store::Store;
use spb_defs::CurveKind;
use spb_edge::{Bytes, Disk, Memory};
use std::alloc::Global;

/// The ids of the collection within the radius.
pub(crate) fn range_in<D: Disk, M: Metric, R: Ruler>(
    alloc: Global,
    store: &Store<'_, D, M>,
    ruler: &mut R,
    c: u8,
    radius: u32,
    query: &Bytes,
) -> Result<Reply, Memory>
    requires metric { HasMetric M.admitted M.dist store.now }
    requires ruler { IsMetricOf (R.admitted (R.kind ruler.old)) (R.dist (R.kind ruler.old)) store.now.profile.space }
    requires room { R.count ruler.old < 2 ^ 63 }
    requires collection { c < 4 }
    requires query { IsValid store.now.profile.space query.now }
    ensures reply { (s : State) → IsInState D.is_known D.image store.now s → IfOk result (λ said. said ≡ reply_of s (Command.Range c radius query.now)) }
    ensures object { IfOk result (λ said. HoldsObject store.now.profile.space said) }
    ensures count { IfOk result (λ said. R.count ruler.new ≡ R.count ruler.old + evals_of said) }
    ensures ruler { RulerContinues R.kind R.count ruler.old ruler.new }
{
    let rows = store.rows(c);
    range_of(alloc, rows, store.pivots(), ruler, c, radius, query)
}

/// The `k` nearest of the collection, by distance and then by id.
pub(crate) fn near_in<D: Disk, M: Metric, R: Ruler>(
    alloc: Global,
    store: &Store<'_, D, M>,
    ruler: &mut R,
    c: u8,
    k: u32,
    query: &Bytes,
) -> Result<Reply, Memory>
    requires metric { HasMetric M.admitted M.dist store.now }
    requires ruler { IsMetricOf (R.admitted (R.kind ruler.old)) (R.dist (R.kind ruler.old)) store.now.profile.space }
    requires room { R.count ruler.old < 2 ^ 63 }
    requires collection { c < 4 }
    requires some { 1 ≤ k }
    requires query { IsValid store.now.profile.space query.now }
    ensures reply { (s : State) → IsInState D.is_known D.image store.now s → IfOk result (λ said. said ≡ reply_of s (Command.Near c k query.now)) }
    ensures object { IfOk result (λ said. HoldsObject store.now.profile.space said) }
    ensures count { IfOk result (λ said. R.count ruler.new ≡ R.count ruler.old + evals_of said) }
    ensures ruler { RulerContinues R.kind R.count ruler.old ruler.new }
{
    let rows = store.rows(c);
    near_of(alloc, rows, store.pivots(), ruler, c, k, query)
}

/// The pairs of an id of collection `c` and one of `d` within the radius of each other. Over the Hilbert curve no pairs
/// are asked for, and nothing is measured.
pub(crate) fn join_in<D: Disk, M: Metric, R: Ruler>(
    alloc: Global,
    store: &Store<'_, D, M>,
    ruler: &mut R,
    c: u8,
    d: u8,
    radius: u32,
) -> Result<Reply, Memory>
    requires metric { HasMetric M.admitted M.dist store.now }
    requires ruler { IsMetricOf (R.admitted (R.kind ruler.old)) (R.dist (R.kind ruler.old)) store.now.profile.space }
    requires room { R.count ruler.old < 2 ^ 63 }
    requires left { c < 4 }
    requires right { d < 4 }
    ensures reply { (s : State) → IsInState D.is_known D.image store.now s → IfOk result (λ said. said ≡ reply_of s (Command.Join c d radius)) }
    ensures object { IfOk result (λ said. HoldsObject store.now.profile.space said) }
    ensures count { IfOk result (λ said. R.count ruler.new ≡ R.count ruler.old + evals_of said) }
    ensures ruler { RulerContinues R.kind R.count ruler.old ruler.new }
{
    if !allows_joins(store.profile().curve) {
        return Ok(Reply::Curve);
    }
    let left = store.rows(c);
    let right = store.rows(d);
    let pivots = store.pivots();
    join_of(alloc, left, right, pivots, ruler, c, d, radius)
}

/// Whether pairs may be asked for over the curve.
fn allows_joins(curve: CurveKind) -> bool
    ensures { result ≡ state.allows_joins (Some curve) }
{
    match curve {
        CurveKind::Z => true,
        CurveKind::Hilbert => false,
    }
}
