//! Stores that are made in files.
ghost use Rattle.std.specs.Prelude.{◌≡◌, ◌⊎◌, ◌↔◌, ◌*◌, ◌<◌, ◌≤◌, ℕ, List, length, All, Some, IsTrue, IfOk};
ghost use Rattle.spb_edge.specs.Calls.{StaysKnown};
ghost use Rattle.spb_edge.specs.Crash.{IsDurable, CrashesLeaveOnly};
ghost use Rattle.metrics_builtin.specs.Space.{fits, bits, IsValid};
ghost use Rattle.spb_defs.specs.declared.TheConstants.{SAMPLE_LIMIT};
ghost use Rattle.spb_defs.specs.State.{empty_in_file};
ghost use Rattle.store_check.specs.Stands.{Stands, IsNoStore};
ghost use Rattle.spb_top.specs.Written.{WritesLine, LeavesInput, made_line};
ghost use Rattle.spb_top.specs.Outside.{NoneFell, outside_of};
ghost use Rattle.spb_top.specs.Causes.{CauseOf, StopsSampling};
ghost use Rattle.spb_top.specs.Files.{IsLineOf, EndsAs, MayLeave};
ghost use Rattle.spb_top.specs.Plans.{IsPlan, asked_plan, IsChosen, StopsMaking, new_profile};

use crate::lines::{made_line, print_line};
use crate::status::Status;
use metrics_builtin::{Hamming, L1, LInf, SetDiff, Space};
use page_laws::Root;
use pivot_choice::{Choice, choose_objects};
use sample_lines::read_samples;
use spb_defs::CurveKind;
use spb_edge::{Bytes, Disk, Memory, Sink, Source};
use std::alloc::Global;
use store_check::Profile;
use store_format::format;

/// The store that is to be made.
#[derive(Clone, Copy, Debug)]
pub(crate) struct Plan {
    pub(crate) curve: CurveKind,
    /// The most pivots, 1 to 8.
    pub(crate) pivots: u8,
    /// The most objects, 1 to 65536.
    pub(crate) cap: u32,
    pub(crate) space: Space,
}

/// Makes the file of an empty store on an empty disk, with pivots from the samples in the input, and prints how many there
/// are and how many evaluations their choice took.
///
/// The tests before it are made in this order: that a key has at most 64 bits, that the disk is empty, and the lines of the
/// input one by one.
pub(crate) fn make_file<S: Source, K: Sink, D: Disk>(
    alloc: Global,
    plan: Plan,
    input: &mut S,
    output: &mut K,
    disk: &mut D,
) -> Status
    requires plan { IsPlan plan }
    ensures line { WritesLine (IsLineOf (asked_plan plan) (outside_of S.Source K.Sink D.Disk input.old input.new output.old output.new disk.old disk.new)) result (K.taken output.old) (K.taken output.new) }
    ensures input { (script : List ℕ) → S.left input.old ≡ Some script → LeavesInput result script (S.left input.new) }
    // On a fault or at the limit the lines that came before it were samples.
    ensures samples { (script : List ℕ) → S.left input.old ≡ Some script → StopsSampling result plan.space script (S.left input.new) }
    ensures any_moment { IsTrue (D.is_known disk.old) → IsTrue (D.knows_crashes disk.old) → IsDurable (D.image disk.old) (D.crash_states disk.old)
        → CrashesLeaveOnly D.moment D.crash_states_since disk.old disk.new
        (MayLeave (asked_plan plan) (outside_of S.Source K.Sink D.Disk input.old input.new output.old output.new disk.old disk.new)) }
    ensures stored { IsTrue (D.is_known disk.old) → result ≡ Status.Done
        → EndsAs (asked_plan plan) (outside_of S.Source K.Sink D.Disk input.old input.new output.old output.new disk.old disk.new) (D.image disk.new) }
    ensures durable { IsTrue (D.is_known disk.old) → IsTrue (D.knows_crashes disk.old) → result ≡ Status.Done
        → IsDurable (D.image disk.new) (D.crash_states disk.new) }
    ensures untouched { 0 < D.size_of disk.old → D.quiet disk.old disk.new }
    ensures cause { CauseOf (asked_plan plan) result (outside_of S.Source K.Sink D.Disk input.old input.new output.old output.new disk.old disk.new) }
    ensures faults { NoneFell (outside_of S.Source K.Sink D.Disk input.old input.new output.old output.new disk.old disk.new).traffic }
    ensures told { StaysKnown D.is_known D.knows_crashes disk.old disk.new }
{
    if is_too_wide(plan) {
        return Status::TooWide;
    }
    match disk.size() {
        Ok(0) => {}
        Ok(_) => return Status::NotEmpty,
        Err(_) => return Status::DiskFault,
    }
    let samples = match read_samples(alloc, &plan.space, input) {
        Ok(samples) => samples,
        Err(e) => return e.into(),
    };
    let Ok(choice) = choose_pivots(alloc, plan, samples.as_slice()) else {
        return Status::NoMemory;
    };
    make_store(alloc, plan, &choice, output, disk)
}

/// Whether a cell's key would have more than 64 bits.
fn is_too_wide(plan: Plan) -> bool
    requires plan { IsPlan plan }
    ensures { IsTrue result ↔ (64 < plan.pivots * bits plan.space) }
{
    u32::from(plan.pivots) * u32::from(plan.space.bits()) > 64
}

/// The pivots from the samples, by the metric of the space.
pub(crate) fn choose_pivots(alloc: Global, plan: Plan, samples: &[Bytes]) -> Result<Choice, Memory>
    requires plan { IsPlan plan }
    requires few { length samples.now ≤ SAMPLE_LIMIT }
    requires objects { All (IsValid plan.space) samples.now }
    ensures chosen { IfOk result (λ choice. IsChosen plan samples.now choice.pivots.items choice.evals) }
    ensures valid { IfOk result (λ choice. All (IsValid plan.space) choice.pivots.items) }
{
    by_metric!(plan.space, metric => choose_objects(alloc, &metric, samples, plan.pivots as usize))
}

/// Makes the file on an empty disk, and prints the line.
#[tactic(auto, using(crate::proofs::Printing::prints))]
fn make_store<K: Sink, D: Disk>(
    alloc: Global,
    plan: Plan,
    choice: &Choice,
    output: &mut K,
    disk: &mut D,
) -> Status
    requires plan { IsPlan plan }
    requires some { 1 ≤ length choice.now.pivots.items }
    requires few { length choice.now.pivots.items ≤ plan.pivots }
    requires narrow { plan.pivots * bits plan.space ≤ 64 }
    requires valid { All (IsValid plan.space) choice.now.pivots.items }
    requires empty { D.size_of disk.old ≡ 0 }
    ensures line { WritesLine (λ line. line ≡ made_line (length choice.now.pivots.items) choice.now.evals) result (K.taken output.old) (K.taken output.new) }
    ensures any_moment { IsTrue (D.is_known disk.old) → IsTrue (D.knows_crashes disk.old) → IsDurable (D.image disk.old) (D.crash_states disk.old)
        → CrashesLeaveOnly D.moment D.crash_states_since disk.old disk.new
        (λ c. IsNoStore c ⊎ Stands c (empty_in_file plan.space plan.curve choice.now.pivots.items plan.cap)) }
    ensures stored { IsTrue (D.is_known disk.old) → result ≡ Status.Done → Stands (D.image disk.new) (empty_in_file plan.space plan.curve choice.now.pivots.items plan.cap) }
    ensures durable { IsTrue (D.is_known disk.old) → IsTrue (D.knows_crashes disk.old) → result ≡ Status.Done
        → IsDurable (D.image disk.new) (D.crash_states disk.new) }
    ensures stops { StopsMaking result (K.faults output.old) (K.faults output.new) (D.faults disk.old) (D.faults disk.new) }
    ensures told { StaysKnown D.is_known D.knows_crashes disk.old disk.new }
{
    let pivots = choice.pivots.as_slice();
    let Ok(line) = made_line(alloc, pivots.len() as u64, choice.evals) else {
        return Status::NoMemory;
    };
    match format(alloc, disk, &profile_of(plan, pivots.len() as u8), pivots) {
        Ok(()) => print_line(output, &line),
        Err(e) => e.into(),
    }
}

/// The profile of a new store with this many pivots.
pub(crate) fn profile_of(plan: Plan, pivots: u8) -> Profile
    requires { IsTrue (fits plan.space) }
    ensures { result ≡ new_profile plan pivots }
{
    Profile {
        space: plan.space,
        curve: plan.curve,
        pivots,
        bits: plan.space.bits(),
        cap: plan.cap,
        roots: [Root { page: 0, height: 0 }; 8],
    }
}
