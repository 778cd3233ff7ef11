//! Lines and commands over a store in a file.
ghost use Rattle.std.specs.Prelude.{◌≡◌, ◌+◌, ◌^◌, ◌<◌, None, IsTrue, IfOk, OnOk};
ghost use Rattle.metric_laws.specs.Calls.{RulerContinues};
ghost use Rattle.spb_edge.specs.Calls.{StaysKnown};
ghost use Rattle.spb_edge.specs.Crash.{IsDurable, CrashesLeaveOnly};
ghost use Rattle.spb_defs.specs.CommandText.{IsWellFormed};
ghost use Rattle.spb_defs.specs.MetricOf.{IsMetricOf};
ghost use Rattle.spb_defs.specs.State.{State};
ghost use Rattle.spb_defs.specs.Step.{reply, next_state, reply_of, changed_state, evals_of};
ghost use Rattle.cmd_grammar.specs.HoldsObject.{HoldsObject};
ghost use Rattle.open_store.specs.Errors.{CountsFirst, IsUndamaged};
ghost use Rattle.open_store.specs.Store.{IsInState};
ghost use Rattle.open_store.specs.Answers.{StandsForEither};
ghost use Rattle.session.specs.Endings.{BlamesSlotRule};
ghost use Rattle.session.specs.FileSession.{HasMetric, HasSameFile};

use crate::file_objects::{add_object, drop_object, get_object};
use crate::file_queries::{join_in, near_in, range_in};
use crate::lines::read_line;
use cmd_grammar::{Command, Reply};
use metric_laws::{Metric, Ruler};
use open_store::{First, Store};
use spb_edge::{Disk, Line};
use std::alloc::Global;

/// The reply to the line, and the store after it.
///
/// # Errors
///
/// The error that ends the session.
pub(crate) fn answer_line<D: Disk, M: Metric, R: Ruler>(
    alloc: Global,
    store: &mut Store<'_, D, M>,
    ruler: &mut R,
    line: &Line,
) -> Result<Reply, First>
    requires metric { HasMetric M.admitted M.dist store.old }
    requires open { store.old.spent ≡ None }
    requires ruler { IsMetricOf (R.admitted (R.kind ruler.old)) (R.dist (R.kind ruler.old)) store.old.profile.space }
    requires room { R.count ruler.old < 2 ^ 63 }
    ensures reply { (s : State) → IsInState D.is_known D.image store.old s → IfOk result (λ said. said ≡ reply s line.now) }
    ensures next { (s : State) → IsInState D.is_known D.image store.old s → OnOk result (IsInState D.is_known D.image store.new (next_state s line.now)) }
    ensures any_moment { (s : State) → IsInState D.is_known D.image store.old s → IsTrue (D.knows_crashes store.old.pages.disk)
        → IsDurable (D.image store.old.pages.disk) (D.crash_states store.old.pages.disk)
        → CrashesLeaveOnly D.moment D.crash_states_since store.old.pages.disk store.new.pages.disk (StandsForEither s (next_state s line.now)) }
    ensures count { IfOk result (λ said. R.count ruler.new ≡ R.count ruler.old + evals_of said) }
    ensures ruler { RulerContinues R.kind R.count ruler.old ruler.new }
    ensures kept { IsTrue (D.is_known store.old.pages.disk) → IsTrue (D.knows_crashes store.old.pages.disk)
        → IsDurable (D.image store.old.pages.disk) (D.crash_states store.old.pages.disk)
        → OnOk result (IsDurable (D.image store.new.pages.disk) (D.crash_states store.new.pages.disk)) }
    ensures undamaged { (s : State) → IsInState D.is_known D.image store.old s → IsUndamaged result }
    ensures blames { BlamesSlotRule store.old.slots.cap result }
    ensures object { IfOk result (λ said. HoldsObject store.old.profile.space said) }
    ensures open { OnOk result (store.new.spent ≡ None) }
    ensures file { HasSameFile store.old store.new }
    ensures told { StaysKnown D.is_known D.knows_crashes store.old.pages.disk store.new.pages.disk }
    ensures fault { CountsFirst result (D.faults store.old.pages.disk) (D.faults store.new.pages.disk) }
{
    match read_line(alloc, &store.profile().space, line)? {
        Ok(command) => answer_command(alloc, store, ruler, command),
        Err(refusal) => Ok(refusal),
    }
}

/// The reply to the command, and the store after it.
fn answer_command<D: Disk, M: Metric, R: Ruler>(
    alloc: Global,
    store: &mut Store<'_, D, M>,
    ruler: &mut R,
    command: Command,
) -> Result<Reply, First>
    requires metric { HasMetric M.admitted M.dist store.old }
    requires open { store.old.spent ≡ None }
    requires ruler { IsMetricOf (R.admitted (R.kind ruler.old)) (R.dist (R.kind ruler.old)) store.old.profile.space }
    requires room { R.count ruler.old < 2 ^ 63 }
    requires proper { IsWellFormed store.old.profile.space command }
    ensures reply { (s : State) → IsInState D.is_known D.image store.old s → IfOk result (λ said. said ≡ reply_of s command) }
    ensures next { (s : State) → IsInState D.is_known D.image store.old s → OnOk result (IsInState D.is_known D.image store.new (changed_state s command)) }
    ensures any_moment { (s : State) → IsInState D.is_known D.image store.old s → IsTrue (D.knows_crashes store.old.pages.disk)
        → IsDurable (D.image store.old.pages.disk) (D.crash_states store.old.pages.disk)
        → CrashesLeaveOnly D.moment D.crash_states_since store.old.pages.disk store.new.pages.disk (StandsForEither s (changed_state s command)) }
    ensures count { IfOk result (λ said. R.count ruler.new ≡ R.count ruler.old + evals_of said) }
    ensures ruler { RulerContinues R.kind R.count ruler.old ruler.new }
    ensures kept { IsTrue (D.is_known store.old.pages.disk) → IsTrue (D.knows_crashes store.old.pages.disk)
        → IsDurable (D.image store.old.pages.disk) (D.crash_states store.old.pages.disk)
        → OnOk result (IsDurable (D.image store.new.pages.disk) (D.crash_states store.new.pages.disk)) }
    ensures undamaged { (s : State) → IsInState D.is_known D.image store.old s → IsUndamaged result }
    ensures blames { BlamesSlotRule store.old.slots.cap result }
    ensures object { IfOk result (λ said. HoldsObject store.old.profile.space said) }
    ensures open { OnOk result (store.new.spent ≡ None) }
    ensures file { HasSameFile store.old store.new }
    ensures told { StaysKnown D.is_known D.knows_crashes store.old.pages.disk store.new.pages.disk }
    ensures fault { CountsFirst result (D.faults store.old.pages.disk) (D.faults store.new.pages.disk) }
{
    match command {
        Command::Sample { object: _ } => Ok(Reply::Late),
        Command::Add { c, id, object } => add_object(alloc, store, c, id, &object),
        Command::Discard { c, id } => drop_object(store, c, id),
        Command::Get { c, id } => get_object(alloc, store, c, id),
        Command::Count { c } => Ok(Reply::Count(store.count(c))),
        Command::Range { c, r, object } => Ok(range_in(alloc, store, ruler, c, r, &object)?),
        Command::Near { c, k, object } => Ok(near_in(alloc, store, ruler, c, k, &object)?),
        Command::Join { c, d, r } => Ok(join_in(alloc, store, ruler, c, d, r)?),
    }
}
