//! Sessions of any kind, as the loop of a run sees them.
ghost use Rattle.std.specs.Prelude.{◌≡◌};

use cmd_grammar::Reply;
use metric_laws::{Metric, Ruler};
use session::{Ending, FileSession, MemSession};
use spb_edge::{Disk, Line};
use std::alloc::Global;

/// A session, which takes one line after the other and goes on from state to state.
pub(crate) trait Turns {
    ghost use Rattle.std.specs.Prelude.{◌≡◌, ℕ, ◌∷◌, ◌++◌, ◌^◌, ◌<◌, List, [], Contains, Bool, false, IfOk, OnOk};
    ghost use Rattle.spb_edge.specs.declared.reader.Line.{Line};
    ghost use Rattle.metrics_builtin.specs.declared.Space.{Space};
    ghost use Rattle.spb_defs.specs.MetricOf.{IsMetricOf};
    ghost use Rattle.spb_defs.specs.State.{State};
    ghost use Rattle.spb_defs.specs.Step.{reply, next_state};
    ghost use Rattle.cmd_grammar.specs.HoldsObject.{HoldsObject};
    ghost use Rattle.session.specs.Endings.{CountsTurnFault, IsUndamagedTurn};
    ghost use Rattle.spb_top.specs.Turns.{IsUnspent};

    // the space of its objects
    ghost space: { Self → Space };

    // whether it has ended, and answers no more
    ghost ended: { Self → Bool };

    // how many faults its disk counted
    ghost faults: { Self → ℕ };

    // which disk it works on
    ghost name: { Self → ℕ };

    // whether the image of its disk is known, and whether the crash states are
    ghost knows: { Self → Bool × Bool };

    // it goes on from the state
    ghost holds: { Self → State → Type 0 };

    // between the two a crash leaves only what stands for one of these states
    ghost leaves: { Self → Self → List State → Type 0 };

    // a crash now leaves only what stands for one of these states
    ghost left_now: { Self → List State → Type 0 };

    /// The reply to the line, and the session after it. The queries are measured by the ruler.
    fn turn<R: Ruler>(&mut self, alloc: Global, ruler: &mut R, line: &Line) -> Result<Reply, Ending>
        requires line { line.now ≡ Line.End → ⊥ }
        requires ruler { IsMetricOf (R.admitted (R.kind ruler.old)) (R.dist (R.kind ruler.old)) (space self.old) }
        requires room { R.count ruler.old < 2 ^ 63 }
        ensures reply { (s : State) → holds self.old s → IfOk result (λ said. said ≡ reply s line.now) }
        ensures next { (s : State) → holds self.old s → OnOk result (holds self.new (next_state s line.now)) }
        ensures any_moment { (s : State) → holds self.old s → leaves self.old self.new (s ∷ next_state s line.now ∷ []) }
        ensures object { IfOk result (λ said. HoldsObject (space self.old) said) }
        ensures space { space self.new ≡ space self.old }
        ensures open { OnOk result (ended self.new ≡ false) }
        ensures ends { ended self.old ≡ false → IsUnspent result }
        ensures undamaged { (s : State) → holds self.old s → IsUndamagedTurn result }
        ensures fault { CountsTurnFault result (faults self.old) (faults self.new) }
        ensures name { name self.new ≡ name self.old }
        ensures told { knows self.new ≡ knows self.old };

    // a state that it goes on from is one of its space
    ghost space_held: { (a : Self) (s : State) → holds a s → s.space ≡ space a };

    // at first a crash leaves only what stands for the state
    ghost leaves_same: { (a : Self) (s : State) → holds a s → leaves a a (s ∷ []) };

    // one stretch of time and then another
    ghost leaves_joined: { (a b c : Self) (xs ys : List State) → leaves a b xs → leaves b c ys → leaves a c (xs ++ ys) };

    // what stands for one of some states stands for one of more
    ghost leaves_more: { (a b : Self) (xs ys : List State) → ((s : State) → Contains xs s → Contains ys s) → leaves a b xs → leaves a b ys };

    // what a crash leaves now is among what it might have left
    ghost leaves_now: { (a b : Self) (xs : List State) → leaves a b xs → left_now b xs };
}

impl<M: Metric> Turns for MemSession<M> {
    ghost use Rattle.std.proofs.Common.{ap, sym, true};
    ghost use Rattle.spb_defs.specs.State.{State};

    ghost space = { λ session. session.state.space };

    ghost ended = { λ session. session.ended };

    ghost faults = { λ _. 0 };

    ghost name = { λ _. 0 };

    ghost knows = { λ _. (true, true) };

    ghost holds = { λ session s. session.state ≡ s };

    ghost leaves = { λ _ _ _. Unit {0} };

    ghost left_now = { λ _ _. Unit {0} };

    fn turn<R: Ruler>(
        &mut self,
        alloc: Global,
        ruler: &mut R,
        line: &Line,
    ) -> Result<Reply, Ending> {
        MemSession::turn(self, alloc, ruler, line)
    }

    ghost space_held = { λ session s holds. ap (λ (t : State). t.space) (sym holds) };

    ghost leaves_same = { λ _ _ _. tt };

    ghost leaves_joined = { λ _ _ _ _ _ _ _. tt };

    ghost leaves_more = { λ _ _ _ _ _ _. tt };

    ghost leaves_now = { λ _ _ _ _. tt };
}

impl<'a, D: Disk, M: Metric> Turns for FileSession<'a, D, M> {
    ghost use Rattle.std.specs.Prelude.{is_some};
    ghost use Rattle.spb_top.specs.FileTurns.{HoldsFile, LeavesFile, LeftInFile, held_space, left_same, left_joined, left_more, left_by};

    ghost space = { λ session. session.store.profile.space };

    ghost ended = { λ session. is_some session.ended };

    ghost faults = { λ session. D.faults session.store.pages.disk };

    ghost name = { λ session. session.store.pages.name };

    ghost knows = { λ session. (D.is_known session.store.pages.disk, D.knows_crashes session.store.pages.disk) };

    ghost holds = { HoldsFile D.is_known D.knows_crashes D.image D.crash_states };

    ghost leaves = { LeavesFile D.is_known D.knows_crashes D.moment D.crash_states_since };

    ghost left_now = { LeftInFile D.knows_crashes D.crash_states };

    fn turn<R: Ruler>(
        &mut self,
        alloc: Global,
        ruler: &mut R,
        line: &Line,
    ) -> Result<Reply, Ending> {
        FileSession::turn(self, alloc, ruler, line)
    }

    ghost space_held = { λ session s holds. held_space D.is_known D.knows_crashes D.image D.crash_states session s holds };

    ghost leaves_same = { λ session s holds. left_same D.is_known D.knows_crashes D.moment D.crash_states_since D.image D.crash_states D.only_now session s holds };

    ghost leaves_joined = { λ a b c xs ys first second. left_joined D.is_known D.knows_crashes D.moment D.crash_states_since a b c xs ys first second };

    ghost leaves_more = { λ a b xs ys more left. left_more D.is_known D.knows_crashes D.moment D.crash_states_since a b xs ys more left };

    ghost leaves_now = { λ a b xs left. left_by D.is_known D.knows_crashes D.moment D.crash_states_since D.crash_states D.counts_now a b xs left };
}
