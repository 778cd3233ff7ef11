ghost use Rattle.metric_laws.specs.Calls.{RulerContinues};
ghost use Rattle.std.specs.Prelude.{◌≡◌, false, IsTrue, IfOk};

use crate::endings::Ending;
use crate::store::Store;
use cmd_grammar::Reply;
use metric_laws::{Metric, Ruler};
use metrics_builtin::Space;
use open_store::First;
use spb_edge::{Line, Memory};
use std::alloc::Global;
use std::marker::Model;

/// A session over a store in memory, with the space's metric.
#[derive(Drop)]
pub struct MemSession<M: Metric> {
    metric: M,
    store: Store,
    ended: bool,
}

impl<M: Metric> Model for MemSession<M> {
    ghost use Rattle.session.specs.Session.{Session};

    ghost Value = { Session };

    ghost use Rattle.spb_defs.specs.MetricOf.{IsMetricOf};
    ghost use Rattle.session.specs.Store.{IsStore, state_of};

    ghost view = { λ s. record { state = state_of s.store; ended = s.ended } };

    ghost invariant = { λ s. IsStore s.store × IsMetricOf (M.admitted s.metric) (M.dist s.metric) s.store.space };
}

impl<M: Metric> MemSession<M> {
    ghost use Rattle.std.specs.Prelude.{◌≡◌, ◌+◌, ◌^◌, ◌<◌, ◌≤◌, false, IsTrue, IfOk};
    ghost use Rattle.metrics_builtin.specs.Space.{fits};
    ghost use Rattle.spb_edge.specs.declared.reader.Line.{Line};
    ghost use Rattle.spb_defs.specs.State.{empty_in_memory};
    ghost use Rattle.spb_defs.specs.MetricOf.{IsMetricOf};
    ghost use Rattle.spb_defs.specs.Step.{evals_of};
    ghost use Rattle.session.specs.Session.{AnswersTurn};
    ghost use Rattle.session.specs.Endings.{StaysIfSpent};

    /// A session over an empty store of the space, which `metric` measures. This many pivots are wanted, 0 to
    /// 8. It takes no memory.
    pub fn new(alloc: Global, space: Space, metric: M, pivots: u8) -> Result<MemSession<M>, Memory>
        requires fits { IsTrue (fits space) }
        requires metric { IsMetricOf (M.admitted metric) (M.dist metric) space }
        requires few { pivots ≤ 8 }
        ensures { IfOk result (λ s. s ≡ record { state = empty_in_memory space pivots; ended = false }) }
    {
        Ok(MemSession {
            metric,
            store: Store::new(alloc, space, pivots),
            ended: false,
        })
    }

    /// The reply to the line, and the session after it.
    ///
    /// A range, a query for the nearest and a join are measured by `ruler`, as often as the reply says, which
    /// is at most 2^32 times. The choice of the pivots, at the first command that isn't a sample, and the
    /// distances of an added object are measured by the session itself.
    ///
    /// An addition, a removal and a look-up take time in the logarithm of the number of objects, and an
    /// addition its distances to the pivots; a count takes none. A range passes over the rows of one
    /// collection once, a query for the nearest also makes a heap of their bounds, and a join passes over
    /// the pairs. The session keeps memory for samples, pivots and rows, and a turn takes it for its answer.
    ///
    /// # Errors
    ///
    /// [`Ending::NoMemory`] if memory runs out, after which the ruler may have measured; and from then on
    /// [`Ending::Spent`] at each turn, which changes nothing.
    pub fn turn<R: Ruler>(
        &mut self,
        alloc: Global,
        ruler: &mut R,
        line: &Line,
    ) -> Result<Reply, Ending>
        requires line { line.now ≡ Line.End → ⊥ }
        requires ruler { IsMetricOf (R.admitted (R.kind ruler.old)) (R.dist (R.kind ruler.old)) self.old.state.space }
        requires room { R.count ruler.old < 2 ^ 63 }
        ensures answers { AnswersTurn result self.old line.now self.new }
        ensures space { self.new.state.space ≡ self.old.state.space }
        ensures ruler { RulerContinues R.kind R.count ruler.old ruler.new }
        ensures count { IfOk result (λ said. R.count ruler.new ≡ R.count ruler.old + evals_of said) }
        ensures few { IfOk result (λ said. evals_of said ≤ 2 ^ 32) }
        ensures spent { StaysIfSpent result ruler.old ruler.new }
    {
        if self.ended {
            return Err(Ending::Spent {
                first: First::Memory,
            });
        }
        match self.store.turn(alloc, &self.metric, ruler, line) {
            Ok(reply) => Ok(reply),
            Err(Memory) => {
                self.ended = true;
                Err(Ending::NoMemory)
            }
        }
    }
}
