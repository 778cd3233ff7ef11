//! Trials: a new store, a generated script on it, and a line of what it was answered.
ghost use Rattle.std.specs.Prelude.{◌≡◌, ◌⊎◌, ◌*◌, ◌<◌, ◌≤◌, IsTrue, true, false, IfOk, OnOk, MatchResult};
ghost use Rattle.spb_edge.specs.Calls.{StaysKnown};
ghost use Rattle.spb_edge.specs.Crash.{IsDurable, CrashesLeaveOnly};
ghost use Rattle.metrics_builtin.specs.Space.{bits};
ghost use Rattle.spb_defs.specs.declared.Asked.TheVariants as asked;
ghost use Rattle.spb_defs.specs.MetricOf.{IsMetricOf};
ghost use Rattle.spb_defs.specs.State.{State};
ghost use Rattle.spb_defs.specs.Changes.{state_after_lines, last_state, changes};
ghost use Rattle.store_core.specs.Parts.{profile_of as profile_in, IsReady};
ghost use Rattle.store_check.specs.Stands.{Stands, IsNoStore};
ghost use Rattle.trial_script.specs.Script.{trial_state, trial_lines, trial_script};
ghost use Rattle.trial_script.specs.Totals.{summary_text, trial_totals};
ghost use Rattle.spb_top.specs.Written.{WritesLine};
ghost use Rattle.spb_top.specs.Outside.{NoneFell, unread_outside};
ghost use Rattle.spb_top.specs.Causes.{CauseOf};
ghost use Rattle.spb_top.specs.Files.{IsLineOf, EndsAs, MayLeave};
ghost use Rattle.spb_top.specs.Opened.{IsRead, IsSettled, IsTurnedAway};
ghost use Rattle.spb_top.specs.Plans.{IsPlan};
ghost use Rattle.spb_top.specs.Trials.{trial_plan, IsTried, HasTotals, StopsTrial, StopsPrint};
ghost use Rattle.spb_top.specs.Turns.{IsUndamagedStop, StandsForOne, StopsTurn, states_through};

use crate::lines::print_line;
use crate::making::{Plan, choose_pivots, profile_of};
use crate::serve::reply_or_stop;
use crate::status::Status;
use crate::turns::Turns;
use metric_laws::Metric;
use metrics_builtin::{Hamming, L1, LInf, SetDiff, Space};
use session::FileSession;
use spb_defs::CurveKind;
use spb_edge::{Bytes, Disk, Memory, Sink};
use std::alloc::Global;
use store_core::{OpenError, Opening};
use store_format::format;
use trial_script::{
    TRIAL_CAP, TRIAL_PIVOTS, TRIAL_SPACE, Totals, TrialLines, lines_are_commands, totals_fit,
    trial_samples,
};

/// Makes the store of a trial on an empty disk, runs the script of this seed with so many objects on it, and prints the sums
/// over its replies.
pub(crate) fn try_file<K: Sink, D: Disk>(
    alloc: Global,
    seed: u64,
    count: u32,
    output: &mut K,
    disk: &mut D,
) -> Status
    requires few { count ≤ 65536 }
    ensures line { WritesLine (IsLineOf (asked.Trial seed count) (unread_outside K.Sink D.Disk output.old output.new disk.old disk.new)) result (K.taken output.old) (K.taken output.new) }
    ensures any_moment { IsTrue (D.is_known disk.old) → IsTrue (D.knows_crashes disk.old) → IsDurable (D.image disk.old) (D.crash_states disk.old)
        → CrashesLeaveOnly D.moment D.crash_states_since disk.old disk.new
        (MayLeave (asked.Trial seed count) (unread_outside K.Sink D.Disk output.old output.new disk.old disk.new)) }
    ensures stored { IsTrue (D.is_known disk.old) → result ≡ Status.Done
        → EndsAs (asked.Trial seed count) (unread_outside K.Sink D.Disk output.old output.new disk.old disk.new) (D.image disk.new) }
    ensures durable { IsTrue (D.is_known disk.old) → IsTrue (D.knows_crashes disk.old) → result ≡ Status.Done
        → IsDurable (D.image disk.new) (D.crash_states disk.new) }
    ensures untouched { 0 < D.size_of disk.old → D.quiet disk.old disk.new }
    ensures cause { CauseOf (asked.Trial seed count) result (unread_outside K.Sink D.Disk output.old output.new disk.old disk.new) }
    ensures faults { NoneFell (unread_outside K.Sink D.Disk output.old output.new disk.old disk.new).traffic }
    ensures told { StaysKnown D.is_known D.knows_crashes disk.old disk.new }
{
    match disk.size() {
        Ok(0) => {}
        Ok(_) => return Status::NotEmpty,
        Err(_) => return Status::DiskFault,
    }
    match make_and_run(alloc, seed, count, disk) {
        Ok(totals) => print_totals(alloc, &totals, output),
        Err(status) => status,
    }
}

/// Makes the store of a trial on an empty disk, and runs the script on it.
///
/// # Errors
///
/// The status with which the run ends: want of memory, a fault of the disk, or a store that isn't opened or is damaged, which
/// never comes over a disk whose bytes are known.
fn make_and_run<D: Disk>(
    alloc: Global,
    seed: u64,
    count: u32,
    disk: &mut D,
) -> Result<Totals, Status>
    requires few { count ≤ 65536 }
    requires empty { D.size_of disk.old ≡ 0 }
    ensures totals { IsTrue (D.is_known disk.old) → IfOk result (λ totals. totals ≡ trial_totals seed count) }
    ensures any_moment { IsTrue (D.is_known disk.old) → IsTrue (D.knows_crashes disk.old) → IsDurable (D.image disk.old) (D.crash_states disk.old)
        → CrashesLeaveOnly D.moment D.crash_states_since disk.old disk.new
        (λ c. IsNoStore c ⊎ StandsForOne (changes (trial_state seed) (trial_script seed count)) c) }
    ensures done { IsTrue (D.is_known disk.old) → OnOk result (Stands (D.image disk.new) (last_state (trial_state seed) (trial_script seed count))) }
    ensures durable { IsTrue (D.is_known disk.old) → IsTrue (D.knows_crashes disk.old) → OnOk result (IsDurable (D.image disk.new) (D.crash_states disk.new)) }
    ensures stops { StopsTrial (D.is_known disk.old) result (D.faults disk.old) (D.faults disk.new) }
    ensures told { StaysKnown D.is_known D.knows_crashes disk.old disk.new }
{
    // The laws on the lines of the script, for `any_moment` and `done`, and on the sums, for `totals`.
    lines_are_commands();
    totals_fit();
    make_trial(alloc, seed, disk)?;
    run_trial(alloc, seed, count, disk)
}

/// The store of a trial, whose pivots aren't chosen yet.
#[tactic(auto, unfolding(metrics_builtin::specs::Space::bit_count))]
fn trial_plan() -> Plan
    ensures is { result ≡ trial_plan }
    ensures plan { IsPlan result }
    ensures narrow { result.pivots * bits result.space ≤ 64 }
{
    Plan {
        curve: CurveKind::Z,
        pivots: TRIAL_PIVOTS,
        cap: TRIAL_CAP,
        space: TRIAL_SPACE,
    }
}

/// Makes the store of the trial's profile, with pivots from the trial's samples.
///
/// # Errors
///
/// The status with which the run ends: want of memory, or a fault of the disk.
fn make_trial<D: Disk>(alloc: Global, seed: u64, disk: &mut D) -> Result<(), Status>
    requires empty { D.size_of disk.old ≡ 0 }
    ensures any_moment { IsTrue (D.is_known disk.old) → IsTrue (D.knows_crashes disk.old) → IsDurable (D.image disk.old) (D.crash_states disk.old)
        → CrashesLeaveOnly D.moment D.crash_states_since disk.old disk.new (λ c. IsNoStore c ⊎ Stands c (trial_state seed)) }
    ensures made { IsTrue (D.is_known disk.old) → OnOk result (Stands (D.image disk.new) (trial_state seed)) }
    ensures durable { IsTrue (D.is_known disk.old) → IsTrue (D.knows_crashes disk.old) → OnOk result (IsDurable (D.image disk.new) (D.crash_states disk.new)) }
    ensures stops { StopsTrial true result (D.faults disk.old) (D.faults disk.new) }
    ensures told { StaysKnown D.is_known D.knows_crashes disk.old disk.new }
{
    let plan = trial_plan();
    let Ok(samples) = trial_samples(alloc, seed) else {
        return Err(Status::NoMemory);
    };
    let Ok(choice) = choose_pivots(alloc, plan, samples.as_slice()) else {
        return Err(Status::NoMemory);
    };
    let pivots = choice.pivots.as_slice();
    match format(alloc, disk, &profile_of(plan, TRIAL_PIVOTS), pivots) {
        Ok(()) => Ok(()),
        Err(e) => Err(e.into()),
    }
}

/// Opens the store that was made, and takes the lines of the trial one by one.
///
/// # Errors
///
/// As those of [`make_and_run`].
fn run_trial<D: Disk>(alloc: Global, seed: u64, count: u32, disk: &mut D) -> Result<Totals, Status>
    ensures totals { IsTrue (D.is_known disk.old) → (first : State) → Stands (D.image disk.old) first → HasTotals first (trial_lines seed count) result }
    ensures any_moment { IsTrue (D.is_known disk.old) → IsTrue (D.knows_crashes disk.old) → IsDurable (D.image disk.old) (D.crash_states disk.old)
        → (first : State) → Stands (D.image disk.old) first
        → CrashesLeaveOnly D.moment D.crash_states_since disk.old disk.new (StandsForOne (states_through first (trial_lines seed count))) }
    ensures done { IsTrue (D.is_known disk.old) → (first : State) → Stands (D.image disk.old) first
        → OnOk result (Stands (D.image disk.new) (state_after_lines first (trial_lines seed count))) }
    ensures durable { IsTrue (D.is_known disk.old) → IsTrue (D.knows_crashes disk.old) → (first : State) → Stands (D.image disk.old) first
        → OnOk result (IsDurable (D.image disk.new) (D.crash_states disk.new)) }
    ensures stops { (first : State) → (IsTrue (D.is_known disk.old) → Stands (D.image disk.old) first)
        → StopsTrial (D.is_known disk.old) result (D.faults disk.old) (D.faults disk.new) }
    ensures told { StaysKnown D.is_known D.knows_crashes disk.old disk.new }
{
    let opening = match Opening::start_or_back(alloc, disk) {
        Ok(opening) => opening,
        Err(back) => {
            let (refusal, _disk) = back;
            return Err(refusal.into());
        }
    };
    match run_opened(alloc, opening, TrialLines::new(seed, count)) {
        Ok(tried) => {
            let (totals, _disk) = tried;
            totals
        }
        Err(back) => {
            let (refusal, _disk) = back;
            Err(refusal.into())
        }
    }
}

/// Opens the store of which the profile and the pivots are read, and takes the lines one by one.
///
/// # Errors
///
/// Why the store isn't opened. The disk is handed back in any case.
fn run_opened<'a, D: Disk>(
    alloc: Global,
    opening: Opening<'a, D>,
    lines: TrialLines,
) -> Result<(Result<Totals, Status>, &'a mut D), (OpenError, &'a mut D)>
    requires ready { IsReady D.size_of opening }
    requires read { IsRead D.Disk opening }
    requires settled { IsSettled D.Disk opening }
    ensures answer { MatchResult result (λ tried. IsTried D.Disk opening.entry lines tried.0 tried.1.now)
        (λ back. IsTurnedAway D.Disk opening.entry back.0 back.1.now) }
    ensures name { MatchResult result (λ tried. tried.1.ghost_name ≡ opening.entry.journal.disk.ghost_name)
        (λ back. back.1.ghost_name ≡ opening.entry.journal.disk.ghost_name) }
{
    by_metric!(opening.profile().space, metric => run_store(alloc, opening, metric, lines))
}

/// As [`run_opened`], by the metric of the store's space.
fn run_store<'a, M: Metric, D: Disk>(
    alloc: Global,
    opening: Opening<'a, D>,
    metric: M,
    lines: TrialLines,
) -> Result<(Result<Totals, Status>, &'a mut D), (OpenError, &'a mut D)>
    requires ready { IsReady D.size_of opening }
    requires read { IsRead D.Disk opening }
    requires settled { IsSettled D.Disk opening }
    requires metric { IsMetricOf (M.admitted metric) (M.dist metric) (profile_in opening).space }
    ensures answer { MatchResult result (λ tried. IsTried D.Disk opening.entry lines tried.0 tried.1.now)
        (λ back. IsTurnedAway D.Disk opening.entry back.0 back.1.now) }
    ensures name { MatchResult result (λ tried. tried.1.ghost_name ≡ opening.entry.journal.disk.ghost_name)
        (λ back. back.1.ghost_name ≡ opening.entry.journal.disk.ghost_name) }
{
    let mut lines = lines;
    let mut session = FileSession::new(opening.finish_or_back(alloc, metric)?);
    let totals = turn_all(alloc, &mut session, metric, &mut lines);
    Ok((totals, session.into_inner()))
}

/// Takes the lines that are left one by one, and sums up their replies.
///
/// # Errors
///
/// The status with which the run ends: want of memory, a fault of the disk, or a damaged page.
fn turn_all<T: Turns, M: Metric>(
    alloc: Global,
    session: &mut T,
    metric: M,
    lines: &mut TrialLines,
) -> Result<Totals, Status>
    requires metric { IsMetricOf (M.admitted metric) (M.dist metric) (T.space session.old) }
    requires open { T.ended session.old ≡ false }
    ensures totals { (first : State) → T.holds session.old first → HasTotals first lines.old result }
    ensures done { (first : State) → T.holds session.old first → OnOk result (T.holds session.new (state_after_lines first lines.old)) }
    ensures any_moment { (first : State) → T.holds session.old first → T.leaves session.old session.new (states_through first lines.old) }
    ensures undamaged { (first : State) → T.holds session.old first → IsUndamagedStop result }
    ensures stops { StopsTurn result (T.faults session.old) (T.faults session.new) }
    ensures name { T.name session.new ≡ T.name session.old }
    ensures told { T.knows session.new ≡ T.knows session.old }
{
    let mut totals = Totals::none();
    loop {
        let Ok(next) = lines.next_line(alloc) else {
            return Err(Status::NoMemory);
        };
        let Some(line) = next else {
            return Ok(totals);
        };
        let reply = reply_or_stop(alloc, session, metric, &line)?;
        totals.add(&reply);
    }
}

/// Prints the line of a trial, which is the end of the work.
#[tactic(auto, using(crate::proofs::Printing::prints))]
fn print_totals<K: Sink>(alloc: Global, totals: &Totals, output: &mut K) -> Status
    ensures line { WritesLine (λ line. line ≡ summary_text totals.now) result (K.taken output.old) (K.taken output.new) }
    ensures stops { StopsPrint result (K.faults output.old) (K.faults output.new) }
{
    match summary(alloc, totals) {
        Ok(line) => print_line(output, &line),
        Err(_) => Status::NoMemory,
    }
}

/// The line of a trial.
fn summary(alloc: Global, totals: &Totals) -> Result<Bytes, Memory>
    ensures { IfOk result (λ line. line ≡ summary_text totals.now) }
{
    let mut line = Bytes::of(alloc, &[])?;
    totals.write_summary(&mut line)?;
    Ok(line)
}
