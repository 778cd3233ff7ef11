//! A session over a store in a file.
ghost use Rattle.std.specs.Prelude.{◌≡◌, ◌+◌, ◌^◌, ◌<◌, Some, None, IsTrue, IfOk, OnOk};
ghost use Rattle.metric_laws.specs.Calls.{RulerContinues};
ghost use Rattle.spb_edge.specs.Calls.{StaysKnown};
ghost use Rattle.spb_edge.specs.Crash.{IsDurable, CrashesLeaveOnly};
ghost use Rattle.spb_edge.specs.declared.reader.Line.{Line};
ghost use Rattle.spb_defs.specs.MetricOf.{IsMetricOf};
ghost use Rattle.spb_defs.specs.State.{State};
ghost use Rattle.spb_defs.specs.Step.{reply, next_state, evals_of};
ghost use Rattle.cmd_grammar.specs.HoldsObject.{HoldsObject};
ghost use Rattle.open_store.specs.Store.{IsStore, IsInState};
ghost use Rattle.open_store.specs.Answers.{StandsForEither};
ghost use Rattle.session.specs.Endings.{EndsOrGoesOn, CountsTurnFault, IsUndamagedTurn, BlamesInTurn, StaysIfSpent, ending_of};
ghost use Rattle.session.specs.FileSession.{FileView, HasMetric, HasSameFile};

use crate::endings::Ending;
use crate::file_lines::answer_line;
use cmd_grammar::Reply;
use metric_laws::{Metric, Ruler};
use open_store::{First, Store};
use spb_edge::{Disk, Line};
use std::alloc::Global;
use std::marker::Model;

/// A session over a store in a file.
///
/// It goes on from the state that the store stands for. Every change is one change of the file: a crash leaves the file
/// with all of it or none.
#[derive(Drop)]
pub struct FileSession<'a, D: Disk, M: Metric> {
    store: Store<'a, D, M>,
    ended: Option<First>,
}

impl<'a, D: Disk, M: Metric> Model for FileSession<'a, D, M> {
    ghost use Rattle.session.specs.FileSession.{FileView, IsFileSession};

    ghost Value = { FileView D M };

    ghost view = { λ s. record { store = s.store; ended = s.ended } };

    ghost invariant = { λ s. IsFileSession M.admitted M.dist (record { store = s.store; ended = s.ended }) };
}

impl<'a, D: Disk, M: Metric> FileSession<'a, D, M> {
    ghost use Rattle.std.specs.Prelude.{◌≡◌, ◌+◌, ◌*◌, ◌^◌, ◌<◌, None, IsTrue, IfOk, OnOk};
    ghost use Rattle.page_laws.specs.declared.pages.TheConstants.{PAGE_SIZE};

    /// A session over a store that had no error yet. No device call is made.
    pub fn new(store: Store<'a, D, M>) -> Self
        requires sound { IsStore D.is_known D.image M.admitted M.dist store }
        requires open { store.spent ≡ None }
        ensures store { result.store ≡ store.entry }
        ensures open { result.ended ≡ None }
    {
        FileSession { store, ended: None }
    }

    /// Hands back the reference to the disk. No device call is made.
    pub fn into_inner(self) -> &'a mut D
        ensures name { result.ghost_name ≡ self.entry.store.pages.name }
        ensures disk { result.now ≡ self.entry.store.pages.disk }
        ensures size { D.size_of self.entry.store.pages.disk ≡ PAGE_SIZE * self.entry.store.pages.total }
    {
        let FileSession { store, ended: _ } = self;
        store.into_inner()
    }

    /// The reply to the line, and the session after it.
    ///
    /// A range, a query for the nearest and a join are measured by `ruler`, as often as the reply says. The distances of
    /// an added object to the pivots are measured by the store itself. A sample is answered [`Reply::Late`], and a join
    /// over the Hilbert curve [`Reply::Curve`].
    ///
    /// An addition and a removal make one change of the file, and a look-up reads one page; a count and a query make no
    /// device call. A range passes over the rows of one collection once, a query for the nearest also makes a heap of
    /// their bounds, and a join passes over the pairs. A turn takes memory for its answer, and an addition for the row,
    /// before the first device call.
    ///
    /// # Errors
    ///
    /// [`Ending::DiskFault`] only if the disk counted a fault in this turn; [`Ending::Damaged`] if the slot of an object
    /// breaks the rule of slots, which never happens over a known disk that holds a state; [`Ending::NoMemory`] if memory runs out.
    /// After one of these the ruler may have measured. From then on each turn is answered [`Ending::Spent`] with the first
    /// error, changes nothing, and makes no device call.
    pub fn turn<R: Ruler>(
        &mut self,
        alloc: Global,
        ruler: &mut R,
        line: &Line,
    ) -> Result<Reply, Ending>
        requires line { line.now ≡ Line.End → ⊥ }
        requires ruler { IsMetricOf (R.admitted (R.kind ruler.old)) (R.dist (R.kind ruler.old)) self.old.store.profile.space }
        requires room { R.count ruler.old < 2 ^ 63 }
        ensures ends { EndsOrGoesOn self.old.ended result self.old self.new self.new.ended }
        ensures reply { (s : State) → IsInState D.is_known D.image self.old.store s → IfOk result (λ said. said ≡ reply s line.now) }
        ensures next { (s : State) → IsInState D.is_known D.image self.old.store s → OnOk result (IsInState D.is_known D.image self.new.store (next_state s line.now)) }
        ensures any_moment { (s : State) → IsInState D.is_known D.image self.old.store s → IsTrue (D.knows_crashes self.old.store.pages.disk)
            → IsDurable (D.image self.old.store.pages.disk) (D.crash_states self.old.store.pages.disk)
            → CrashesLeaveOnly D.moment D.crash_states_since self.old.store.pages.disk self.new.store.pages.disk (StandsForEither s (next_state s line.now)) }
        ensures kept { IsTrue (D.is_known self.old.store.pages.disk) → IsTrue (D.knows_crashes self.old.store.pages.disk)
            → IsDurable (D.image self.old.store.pages.disk) (D.crash_states self.old.store.pages.disk)
            → OnOk result (IsDurable (D.image self.new.store.pages.disk) (D.crash_states self.new.store.pages.disk)) }
        ensures undamaged { (s : State) → IsInState D.is_known D.image self.old.store s → IsUndamagedTurn result }
        ensures blames { BlamesInTurn self.old.store.slots.cap result }
        ensures object { IfOk result (λ said. HoldsObject self.old.store.profile.space said) }
        ensures ruler { RulerContinues R.kind R.count ruler.old ruler.new }
        ensures count { IfOk result (λ said. R.count ruler.new ≡ R.count ruler.old + evals_of said) }
        ensures spent { StaysIfSpent result ruler.old ruler.new }
        ensures file { HasSameFile self.old.store self.new.store }
        ensures told { StaysKnown D.is_known D.knows_crashes self.old.store.pages.disk self.new.store.pages.disk }
        ensures fault { CountsTurnFault result (D.faults self.old.store.pages.disk) (D.faults self.new.store.pages.disk) }
    {
        take_turn(alloc, &mut self.store, &mut self.ended, ruler, line)
    }
}

/// The reply to the line, unless the session has ended or ends.
fn take_turn<D: Disk, M: Metric, R: Ruler>(
    alloc: Global,
    store: &mut Store<'_, D, M>,
    ended: &mut Option<First>,
    ruler: &mut R,
    line: &Line,
) -> Result<Reply, Ending>
    requires metric { HasMetric M.admitted M.dist store.old }
    requires open { ended.old ≡ None → store.old.spent ≡ None }
    requires ruler { IsMetricOf (R.admitted (R.kind ruler.old)) (R.dist (R.kind ruler.old)) store.old.profile.space }
    requires room { R.count ruler.old < 2 ^ 63 }
    ensures sound { HasMetric M.admitted M.dist store.new }
    ensures open { ended.new ≡ None → store.new.spent ≡ None }
    ensures ends { EndsOrGoesOn {V = FileView D M} ended.old result (record { store = store.old; ended = ended.old }) (record { store = store.new; ended = ended.new }) ended.new }
    ensures reply { (s : State) → IsInState D.is_known D.image store.old s → IfOk result (λ said. said ≡ reply s line.now) }
    ensures next { (s : State) → IsInState D.is_known D.image store.old s → OnOk result (IsInState D.is_known D.image store.new (next_state s line.now)) }
    ensures any_moment { (s : State) → IsInState D.is_known D.image store.old s → IsTrue (D.knows_crashes store.old.pages.disk)
        → IsDurable (D.image store.old.pages.disk) (D.crash_states store.old.pages.disk)
        → CrashesLeaveOnly D.moment D.crash_states_since store.old.pages.disk store.new.pages.disk (StandsForEither s (next_state s line.now)) }
    ensures kept { IsTrue (D.is_known store.old.pages.disk) → IsTrue (D.knows_crashes store.old.pages.disk)
        → IsDurable (D.image store.old.pages.disk) (D.crash_states store.old.pages.disk)
        → OnOk result (IsDurable (D.image store.new.pages.disk) (D.crash_states store.new.pages.disk)) }
    ensures undamaged { (s : State) → IsInState D.is_known D.image store.old s → IsUndamagedTurn result }
    ensures blames { BlamesInTurn store.old.slots.cap result }
    ensures object { IfOk result (λ said. HoldsObject store.old.profile.space said) }
    ensures ruler { RulerContinues R.kind R.count ruler.old ruler.new }
    ensures count { IfOk result (λ said. R.count ruler.new ≡ R.count ruler.old + evals_of said) }
    ensures spent { StaysIfSpent result ruler.old ruler.new }
    ensures file { HasSameFile store.old store.new }
    ensures told { StaysKnown D.is_known D.knows_crashes store.old.pages.disk store.new.pages.disk }
    ensures fault { CountsTurnFault result (D.faults store.old.pages.disk) (D.faults store.new.pages.disk) }
{
    if let Some(first) = *ended {
        return Err(Ending::Spent { first });
    }
    match answer_line(alloc, store, ruler, line) {
        Ok(said) => Ok(said),
        Err(first) => Err(end(ended, first)),
    }
}

/// Ends a session: `first` is the error that ends it.
fn end(ended: &mut Option<First>, first: First) -> Ending
    ensures ended { ended.new ≡ Some first }
    ensures ending { result ≡ ending_of first }
{
    *ended = Some(first);
    first.into()
}
