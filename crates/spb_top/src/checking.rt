//! Stores that are opened and counted.
ghost use Rattle.std.specs.Prelude.{◌≡◌, IsTrue, MatchResult};
ghost use Rattle.spb_edge.specs.Calls.{StaysKnown};
ghost use Rattle.spb_edge.specs.Crash.{IsDurable, CrashesLeaveOnly};
ghost use Rattle.spb_defs.specs.declared.Asked.TheVariants as asked;
ghost use Rattle.spb_defs.specs.MetricOf.{IsMetricOf};
ghost use Rattle.store_core.specs.Parts.{profile_of, IsReady};
ghost use Rattle.spb_top.specs.Written.{WritesLine};
ghost use Rattle.spb_top.specs.Outside.{NoneFell, unread_outside};
ghost use Rattle.spb_top.specs.Causes.{CauseOf};
ghost use Rattle.spb_top.specs.Files.{IsLineOf, EndsAs, IsKnownBefore, MayLeave};
ghost use Rattle.spb_defs.specs.State.{State};
ghost use Rattle.store_check.specs.Stands.{Stands};
ghost use Rattle.open_store.specs.Store.{IsStore, row_count};
ghost use Rattle.spb_top.specs.Opened.{IsRead, IsCounted, IsTurnedAway};
ghost use Rattle.spb_top.specs.Counted.{CountsObjects};

use crate::lines::{print_line, sound_line};
use crate::status::Status;
use metric_laws::Metric;
use metrics_builtin::{Hamming, L1, LInf, SetDiff, Space};
use open_store::Store;
use spb_edge::{Disk, Sink};
use std::alloc::Global;
use store_core::{OpenError, Opening};

/// Opens the store in the file, and prints how many objects it has.
pub(crate) fn check_file<K: Sink, D: Disk>(alloc: Global, output: &mut K, disk: &mut D) -> Status
    ensures line { WritesLine (IsLineOf asked.Check (unread_outside K.Sink D.Disk output.old output.new disk.old disk.new)) result (K.taken output.old) (K.taken output.new) }
    ensures any_moment { IsTrue (D.is_known disk.old) → IsTrue (D.knows_crashes disk.old) → IsDurable (D.image disk.old) (D.crash_states disk.old)
        → IsKnownBefore asked.Check (unread_outside K.Sink D.Disk output.old output.new disk.old disk.new)
        → CrashesLeaveOnly D.moment D.crash_states_since disk.old disk.new
        (MayLeave asked.Check (unread_outside K.Sink D.Disk output.old output.new disk.old disk.new)) }
    ensures stored { IsTrue (D.is_known disk.old) → result ≡ Status.Done
        → EndsAs asked.Check (unread_outside K.Sink D.Disk output.old output.new disk.old disk.new) (D.image disk.new) }
    ensures durable { IsTrue (D.is_known disk.old) → IsTrue (D.knows_crashes disk.old) → result ≡ Status.Done
        → IsDurable (D.image disk.new) (D.crash_states disk.new) }
    ensures cause { CauseOf asked.Check result (unread_outside K.Sink D.Disk output.old output.new disk.old disk.new) }
    ensures faults { NoneFell (unread_outside K.Sink D.Disk output.old output.new disk.old disk.new).traffic }
    ensures told { StaysKnown D.is_known D.knows_crashes disk.old disk.new }
{
    let objects = match count_objects(alloc, disk) {
        Ok(objects) => objects,
        Err(refusal) => return refusal.into(),
    };
    let Ok(line) = sound_line(alloc, objects) else {
        return Status::NoMemory;
    };
    print_line(output, &line)
}

/// How many objects the store in the file has.
///
/// # Errors
///
/// Why the store isn't opened.
fn count_objects<D: Disk>(alloc: Global, disk: &mut D) -> Result<u32, OpenError>
    ensures answer { CountsObjects D.Disk disk.old disk.new result }
    ensures any_moment { IsTrue (D.is_known disk.old) → IsTrue (D.knows_crashes disk.old) → IsDurable (D.image disk.old) (D.crash_states disk.old)
        → (s : State) → Stands (D.image disk.old) s → CrashesLeaveOnly D.moment D.crash_states_since disk.old disk.new (λ c. Stands c s) }
    ensures told { StaysKnown D.is_known D.knows_crashes disk.old disk.new }
{
    let opening = match Opening::start_or_back(alloc, disk) {
        Ok(opening) => opening,
        Err(back) => {
            let (refusal, _disk) = back;
            return Err(refusal);
        }
    };
    match count_opened(alloc, opening) {
        Ok(counted) => {
            let (objects, _disk) = counted;
            Ok(objects)
        }
        Err(back) => {
            let (refusal, _disk) = back;
            Err(refusal)
        }
    }
}

/// How many objects the store has of which the profile and the pivots are read.
///
/// # Errors
///
/// Why the store isn't opened. The disk is handed back in any case.
fn count_opened<'a, D: Disk>(
    alloc: Global,
    opening: Opening<'a, D>,
) -> Result<(u32, &'a mut D), (OpenError, &'a mut D)>
    requires ready { IsReady D.size_of opening }
    requires read { IsRead D.Disk opening }
    ensures answer { MatchResult result (λ counted. IsCounted D.Disk opening.entry counted.0 counted.1.now)
        (λ back. IsTurnedAway D.Disk opening.entry back.0 back.1.now) }
    ensures name { MatchResult result (λ counted. counted.1.ghost_name ≡ opening.entry.journal.disk.ghost_name)
        (λ back. back.1.ghost_name ≡ opening.entry.journal.disk.ghost_name) }
{
    by_metric!(opening.profile().space, metric => count_store(alloc, opening, metric))
}

/// As [`count_opened`], by the metric of the store's space.
fn count_store<'a, M: Metric, D: Disk>(
    alloc: Global,
    opening: Opening<'a, D>,
    metric: M,
) -> Result<(u32, &'a mut D), (OpenError, &'a mut D)>
    requires ready { IsReady D.size_of opening }
    requires read { IsRead D.Disk opening }
    requires metric { IsMetricOf (M.admitted metric) (M.dist metric) (profile_of opening).space }
    ensures answer { MatchResult result (λ counted. IsCounted D.Disk opening.entry counted.0 counted.1.now)
        (λ back. IsTurnedAway D.Disk opening.entry back.0 back.1.now) }
    ensures name { MatchResult result (λ counted. counted.1.ghost_name ≡ opening.entry.journal.disk.ghost_name)
        (λ back. back.1.ghost_name ≡ opening.entry.journal.disk.ghost_name) }
{
    let store = opening.finish_or_back(alloc, metric)?;
    let objects = count_all(&store);
    Ok((objects, store.into_inner()))
}

/// How many objects the store has in its four collections.
fn count_all<D: Disk, M: Metric>(store: &Store<'_, D, M>) -> u32
    requires sound { IsStore D.is_known D.image M.admitted M.dist store.now }
    ensures { result ≡ row_count store.now.tables }
{
    store.count(0) + store.count(1) + store.count(2) + store.count(3)
}
