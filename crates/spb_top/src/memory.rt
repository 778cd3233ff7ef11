//! Scripts answered in memory.
ghost use Rattle.std.specs.Prelude.{◌≡◌, ◌≤◌, ℕ, List, Some, IsTrue};
ghost use Rattle.metrics_builtin.specs.Space.{fits};
ghost use Rattle.spb_defs.specs.MetricOf.{IsMetricOf};
ghost use Rattle.spb_top.specs.Written.{WritesReplies, LeavesInput};
ghost use Rattle.spb_top.specs.Outside.{NoneFell, traffic_of};
ghost use Rattle.spb_top.specs.Causes.{HasMemoryCause};
ghost use Rattle.spb_top.specs.Files.{first_state};

use crate::serve::serve_input;
use crate::status::Status;
use metric_laws::Metric;
use metrics_builtin::{Hamming, L1, LInf, SetDiff, Space};
use session::MemSession;
use spb_defs::MemorySetup;
use spb_edge::{Sink, Source};
use std::alloc::Global;

/// Replies to the lines of the input one by one, from an empty store in memory. No disk is touched.
pub(crate) fn serve_memory<S: Source, K: Sink>(
    alloc: Global,
    setup: MemorySetup,
    input: &mut S,
    output: &mut K,
) -> Status
    requires fits { IsTrue (fits setup.space) }
    requires few { setup.pivots ≤ 8 }
    ensures text { (script : List ℕ) → S.left input.old ≡ Some script
        → WritesReplies result (first_state setup) script (S.left input.new) (K.taken output.old) (K.taken output.new) }
    ensures input { (script : List ℕ) → S.left input.old ≡ Some script → LeavesInput result script (S.left input.new) }
    ensures cause { HasMemoryCause result (traffic_of S.Source K.Sink input.old input.new output.old output.new 0 0) }
    ensures faults { NoneFell (traffic_of S.Source K.Sink input.old input.new output.old output.new 0 0) }
{
    by_metric!(setup.space, metric => serve_setup(alloc, setup, metric, input, output))
}

/// The same by the metric of the space.
fn serve_setup<M: Metric, S: Source, K: Sink>(
    alloc: Global,
    setup: MemorySetup,
    metric: M,
    input: &mut S,
    output: &mut K,
) -> Status
    requires fits { IsTrue (fits setup.space) }
    requires few { setup.pivots ≤ 8 }
    requires metric { IsMetricOf (M.admitted metric) (M.dist metric) setup.space }
    ensures text { (script : List ℕ) → S.left input.old ≡ Some script
        → WritesReplies result (first_state setup) script (S.left input.new) (K.taken output.old) (K.taken output.new) }
    ensures input { (script : List ℕ) → S.left input.old ≡ Some script → LeavesInput result script (S.left input.new) }
    ensures cause { HasMemoryCause result (traffic_of S.Source K.Sink input.old input.new output.old output.new 0 0) }
    ensures faults { NoneFell (traffic_of S.Source K.Sink input.old input.new output.old output.new 0 0) }
{
    let Ok(mut session) = MemSession::new(alloc, setup.space, metric, setup.pivots) else {
        return Status::NoMemory;
    };
    serve_input(alloc, &mut session, &setup.space, metric, input, output)
}
