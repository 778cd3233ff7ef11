//! Objects added, dropped and given in a store in a file.
ghost use Rattle.std.specs.Prelude.{◌≡◌, ◌<◌, None, IsTrue, IfOk, OnOk};
ghost use Rattle.spb_edge.specs.Calls.{StaysKnown};
ghost use Rattle.spb_edge.specs.Crash.{IsDurable, CrashesLeaveOnly};
ghost use Rattle.metrics_builtin.specs.Space.{IsValid};
ghost use Rattle.spb_defs.specs.declared.Command.{Command};
ghost use Rattle.spb_defs.specs.State.{State};
ghost use Rattle.spb_defs.specs.Step.{reply_of, changed_state, evals_of};
ghost use Rattle.cmd_grammar.specs.HoldsObject.{HoldsObject};
ghost use Rattle.open_store.specs.Errors.{CountsFirst, IsUndamaged};
ghost use Rattle.open_store.specs.Store.{IsInState};
ghost use Rattle.open_store.specs.Answers.{StandsForEither};
ghost use Rattle.session.specs.Endings.{BlamesSlotRule};
ghost use Rattle.session.specs.FileSession.{HasMetric, HasSameFile, error_reply};

use cmd_grammar::Reply;
use metric_laws::Metric;
use open_store::{ChangeError, First, Store};
use spb_edge::{Bytes, Disk};
use std::alloc::Global;

/// Adds the object, and answers so.
///
/// # Errors
///
/// The error that ends the session.
pub(crate) fn add_object<D: Disk, M: Metric>(
    alloc: Global,
    store: &mut Store<'_, D, M>,
    c: u8,
    id: u32,
    object: &Bytes,
) -> Result<Reply, First>
    requires metric { HasMetric M.admitted M.dist store.old }
    requires open { store.old.spent ≡ None }
    requires collection { c < 4 }
    requires object { IsValid store.old.profile.space object.now }
    ensures reply { (s : State) → IsInState D.is_known D.image store.old s → IfOk result (λ said. said ≡ reply_of s (Command.Add c id object.now)) }
    ensures next { (s : State) → IsInState D.is_known D.image store.old s → OnOk result (IsInState D.is_known D.image store.new (changed_state s (Command.Add c id object.now))) }
    ensures any_moment { (s : State) → IsInState D.is_known D.image store.old s → IsTrue (D.knows_crashes store.old.pages.disk)
        → IsDurable (D.image store.old.pages.disk) (D.crash_states store.old.pages.disk)
        → CrashesLeaveOnly D.moment D.crash_states_since store.old.pages.disk store.new.pages.disk (StandsForEither s (changed_state s (Command.Add c id object.now))) }
    ensures unmeasured { IfOk result (λ said. evals_of said ≡ 0) }
    ensures kept { IsTrue (D.is_known store.old.pages.disk) → IsTrue (D.knows_crashes store.old.pages.disk)
        → IsDurable (D.image store.old.pages.disk) (D.crash_states store.old.pages.disk)
        → OnOk result (IsDurable (D.image store.new.pages.disk) (D.crash_states store.new.pages.disk)) }
    ensures undamaged { (s : State) → IsInState D.is_known D.image store.old s → IsUndamaged result }
    ensures blames { BlamesSlotRule store.old.slots.cap result }
    ensures object { IfOk result (λ said. HoldsObject store.old.profile.space said) }
    ensures open { OnOk result (store.new.spent ≡ None) }
    ensures file { HasSameFile store.old store.new }
    ensures told { StaysKnown D.is_known D.knows_crashes store.old.pages.disk store.new.pages.disk }
    ensures fault { CountsFirst result (D.faults store.old.pages.disk) (D.faults store.new.pages.disk) }
{
    match store.add(alloc, c, id, object.as_slice()) {
        Ok(()) => Ok(Reply::Done),
        Err(e) => reply_to(e),
    }
}

/// Removes the object under the id, and answers so.
///
/// # Errors
///
/// The error that ends the session.
pub(crate) fn drop_object<D: Disk, M: Metric>(
    store: &mut Store<'_, D, M>,
    c: u8,
    id: u32,
) -> Result<Reply, First>
    requires open { store.old.spent ≡ None }
    requires collection { c < 4 }
    ensures reply { (s : State) → IsInState D.is_known D.image store.old s → IfOk result (λ said. said ≡ reply_of s (Command.Discard c id)) }
    ensures next { (s : State) → IsInState D.is_known D.image store.old s → OnOk result (IsInState D.is_known D.image store.new (changed_state s (Command.Discard c id))) }
    ensures any_moment { (s : State) → IsInState D.is_known D.image store.old s → IsTrue (D.knows_crashes store.old.pages.disk)
        → IsDurable (D.image store.old.pages.disk) (D.crash_states store.old.pages.disk)
        → CrashesLeaveOnly D.moment D.crash_states_since store.old.pages.disk store.new.pages.disk (StandsForEither s (changed_state s (Command.Discard c id))) }
    ensures unmeasured { IfOk result (λ said. evals_of said ≡ 0) }
    ensures kept { IsTrue (D.is_known store.old.pages.disk) → IsTrue (D.knows_crashes store.old.pages.disk)
        → IsDurable (D.image store.old.pages.disk) (D.crash_states store.old.pages.disk)
        → OnOk result (IsDurable (D.image store.new.pages.disk) (D.crash_states store.new.pages.disk)) }
    ensures undamaged { (s : State) → IsInState D.is_known D.image store.old s → IsUndamaged result }
    ensures blames { BlamesSlotRule store.old.slots.cap result }
    ensures object { IfOk result (λ said. HoldsObject store.old.profile.space said) }
    ensures open { OnOk result (store.new.spent ≡ None) }
    ensures file { HasSameFile store.old store.new }
    ensures told { StaysKnown D.is_known D.knows_crashes store.old.pages.disk store.new.pages.disk }
    ensures fault { CountsFirst result (D.faults store.old.pages.disk) (D.faults store.new.pages.disk) }
{
    match store.remove(c, id) {
        Ok(()) => Ok(Reply::Done),
        Err(e) => reply_to(e),
    }
}

/// Answers the object under the id.
///
/// # Errors
///
/// The error that ends the session.
pub(crate) fn get_object<D: Disk, M: Metric>(
    alloc: Global,
    store: &mut Store<'_, D, M>,
    c: u8,
    id: u32,
) -> Result<Reply, First>
    requires metric { HasMetric M.admitted M.dist store.old }
    requires open { store.old.spent ≡ None }
    requires collection { c < 4 }
    ensures reply { (s : State) → IsInState D.is_known D.image store.old s → IfOk result (λ said. said ≡ reply_of s (Command.Get c id)) }
    ensures next { (s : State) → IsInState D.is_known D.image store.old s → OnOk result (IsInState D.is_known D.image store.new (changed_state s (Command.Get c id))) }
    ensures any_moment { (s : State) → IsInState D.is_known D.image store.old s → IsTrue (D.knows_crashes store.old.pages.disk)
        → IsDurable (D.image store.old.pages.disk) (D.crash_states store.old.pages.disk)
        → CrashesLeaveOnly D.moment D.crash_states_since store.old.pages.disk store.new.pages.disk (StandsForEither s (changed_state s (Command.Get c id))) }
    ensures unmeasured { IfOk result (λ said. evals_of said ≡ 0) }
    ensures kept { IsTrue (D.is_known store.old.pages.disk) → IsTrue (D.knows_crashes store.old.pages.disk)
        → IsDurable (D.image store.old.pages.disk) (D.crash_states store.old.pages.disk)
        → OnOk result (IsDurable (D.image store.new.pages.disk) (D.crash_states store.new.pages.disk)) }
    ensures undamaged { (s : State) → IsInState D.is_known D.image store.old s → IsUndamaged result }
    ensures blames { BlamesSlotRule store.old.slots.cap result }
    ensures object { IfOk result (λ said. HoldsObject store.old.profile.space said) }
    ensures open { OnOk result (store.new.spent ≡ None) }
    ensures file { HasSameFile store.old store.new }
    ensures told { StaysKnown D.is_known D.knows_crashes store.old.pages.disk store.new.pages.disk }
    ensures fault { CountsFirst result (D.faults store.old.pages.disk) (D.faults store.new.pages.disk) }
{
    let mut object = Bytes::of(alloc, &[])?;
    match store.get(c, id, &mut object) {
        Ok(()) => Ok(Reply::Object(object)),
        Err(e) => reply_to(e),
    }
}

/// The reply to what the store refused, or the error that ends the session.
fn reply_to(e: ChangeError) -> Result<Reply, First>
    ensures { result ≡ error_reply e }
{
    match e {
        ChangeError::Exists => Ok(Reply::Exists),
        ChangeError::Absent => Ok(Reply::Absent),
        ChangeError::Full => Ok(Reply::Full),
        ChangeError::DiskFault => Err(First::DiskFault),
        ChangeError::Damaged { page, rule } => Err(First::Damaged { page, rule }),
        ChangeError::Memory => Err(First::Memory),
        ChangeError::Spent { first } => Err(first),
    }
}
