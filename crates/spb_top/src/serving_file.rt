//! Scripts answered on a store in a file.
ghost use Rattle.std.specs.Prelude.{◌≡◌, ◌++◌, ℕ, List, Some, IsTrue, MatchResult};
ghost use Rattle.spb_edge.specs.Calls.{StaysKnown};
ghost use Rattle.spb_edge.specs.Crash.{IsDurable, CrashesLeaveOnly};
ghost use Rattle.spb_edge.specs.Lines.{lines_of};
ghost use Rattle.spb_defs.specs.declared.Asked.TheVariants as asked;
ghost use Rattle.spb_defs.specs.MetricOf.{IsMetricOf};
ghost use Rattle.spb_defs.specs.State.{State};
ghost use Rattle.store_core.specs.Parts.{profile_of, IsReady};
ghost use Rattle.store_check.specs.Stands.{Stands};
ghost use Rattle.spb_top.specs.Written.{WritesReplies, LeavesInput};
ghost use Rattle.spb_top.specs.Outside.{NoneFell, known_image, outside_of};
ghost use Rattle.spb_top.specs.Causes.{IsKnownStore, CauseOf};
ghost use Rattle.spb_top.specs.Files.{EndsAs, IsKnownBefore, MayLeave};
ghost use Rattle.spb_top.specs.Opened.{IsRead, IsSettled, IsServed, IsTurnedAway};
ghost use Rattle.spb_top.specs.Turns.{AnsweredLines, states_after, StandsForOne};

use crate::serve::serve_input;
use crate::status::Status;
use metric_laws::Metric;
use metrics_builtin::{Hamming, L1, LInf, SetDiff, Space};
use session::FileSession;
use spb_defs::LINE_LIMIT;
use spb_edge::{Disk, Sink, Source};
use std::alloc::Global;
use store_core::{OpenError, Opening};

/// Opens the store in the file, and replies to the lines of the input one by one.
pub(crate) fn serve_file<S: Source, K: Sink, D: Disk>(
    alloc: Global,
    input: &mut S,
    output: &mut K,
    disk: &mut D,
) -> Status
    ensures text { (first : State) → IsKnownStore (known_image D.is_known D.image disk.old) first → (script : List ℕ) → S.left input.old ≡ Some script
        → WritesReplies result first script (S.left input.new) (K.taken output.old) (K.taken output.new) }
    ensures input { (script : List ℕ) → S.left input.old ≡ Some script → LeavesInput result script (S.left input.new) }
    ensures any_moment { IsTrue (D.is_known disk.old) → IsTrue (D.knows_crashes disk.old) → IsDurable (D.image disk.old) (D.crash_states disk.old)
        → IsKnownBefore asked.Run (outside_of S.Source K.Sink D.Disk input.old input.new output.old output.new disk.old disk.new)
        → CrashesLeaveOnly D.moment D.crash_states_since disk.old disk.new
        (MayLeave asked.Run (outside_of S.Source K.Sink D.Disk input.old input.new output.old output.new disk.old disk.new)) }
    ensures acknowledged { IsTrue (D.is_known disk.old) → IsTrue (D.knows_crashes disk.old) → IsDurable (D.image disk.old) (D.crash_states disk.old)
        → (first : State) → Stands (D.image disk.old) first → (script : List ℕ) → S.left input.old ≡ Some script
        → (before written : List ℕ) → K.taken output.old ≡ Some before → K.taken output.new ≡ Some (before ++ written)
        → (many : ℕ) → AnsweredLines first (lines_of LINE_LIMIT script) written many
        → (c : List ℕ) → D.crash_states disk.new c → StandsForOne (states_after first (lines_of LINE_LIMIT script) many) c }
    ensures stored { IsTrue (D.is_known disk.old) → result ≡ Status.Done
        → EndsAs asked.Run (outside_of S.Source K.Sink D.Disk input.old input.new output.old output.new disk.old disk.new) (D.image disk.new) }
    ensures durable { IsTrue (D.is_known disk.old) → IsTrue (D.knows_crashes disk.old) → IsDurable (D.image disk.old) (D.crash_states disk.old)
        → (script : List ℕ) → S.left input.old ≡ Some script → result ≡ Status.Done → IsDurable (D.image disk.new) (D.crash_states disk.new) }
    ensures cause { CauseOf asked.Run result (outside_of S.Source K.Sink D.Disk input.old input.new output.old output.new disk.old disk.new) }
    ensures faults { NoneFell (outside_of S.Source K.Sink D.Disk input.old input.new output.old output.new disk.old disk.new).traffic }
    ensures told { StaysKnown D.is_known D.knows_crashes disk.old disk.new }
{
    let opening = match Opening::start_or_back(alloc, disk) {
        Ok(opening) => opening,
        Err(back) => {
            let (refusal, _disk) = back;
            return refusal.into();
        }
    };
    match serve_opened(alloc, opening, input, output) {
        Ok(served) => {
            let (status, _disk) = served;
            status
        }
        Err(back) => {
            let (refusal, _disk) = back;
            refusal.into()
        }
    }
}

/// Opens the store of which the profile and the pivots are read, and replies to the lines of the input one by one.
///
/// # Errors
///
/// Why the store isn't opened. The disk is handed back in any case.
fn serve_opened<'a, S: Source, K: Sink, D: Disk>(
    alloc: Global,
    opening: Opening<'a, D>,
    input: &mut S,
    output: &mut K,
) -> Result<(Status, &'a mut D), (OpenError, &'a mut D)>
    requires ready { IsReady D.size_of opening }
    requires read { IsRead D.Disk opening }
    requires settled { IsSettled D.Disk opening }
    ensures answer { MatchResult result
        (λ served. IsServed S.Source K.Sink D.Disk opening.entry served.0 input.old input.new output.old output.new served.1.now)
        (λ back. IsTurnedAway D.Disk opening.entry back.0 back.1.now × (input.new ≡ input.old) × (output.new ≡ output.old)) }
    ensures name { MatchResult result (λ served. served.1.ghost_name ≡ opening.entry.journal.disk.ghost_name)
        (λ back. back.1.ghost_name ≡ opening.entry.journal.disk.ghost_name) }
{
    by_metric!(opening.profile().space, metric => serve_store(alloc, opening, metric, input, output))
}

/// As [`serve_opened`], by the metric of the store's space.
fn serve_store<'a, M: Metric, S: Source, K: Sink, D: Disk>(
    alloc: Global,
    opening: Opening<'a, D>,
    metric: M,
    input: &mut S,
    output: &mut K,
) -> Result<(Status, &'a mut D), (OpenError, &'a mut D)>
    requires ready { IsReady D.size_of opening }
    requires read { IsRead D.Disk opening }
    requires settled { IsSettled D.Disk opening }
    requires metric { IsMetricOf (M.admitted metric) (M.dist metric) (profile_of opening).space }
    ensures answer { MatchResult result
        (λ served. IsServed S.Source K.Sink D.Disk opening.entry served.0 input.old input.new output.old output.new served.1.now)
        (λ back. IsTurnedAway D.Disk opening.entry back.0 back.1.now × (input.new ≡ input.old) × (output.new ≡ output.old)) }
    ensures name { MatchResult result (λ served. served.1.ghost_name ≡ opening.entry.journal.disk.ghost_name)
        (λ back. back.1.ghost_name ≡ opening.entry.journal.disk.ghost_name) }
{
    let space = opening.profile().space;
    let mut session = FileSession::new(opening.finish_or_back(alloc, metric)?);
    let status = serve_input(alloc, &mut session, &space, metric, input, output);
    Ok((status, session.into_inner()))
}
