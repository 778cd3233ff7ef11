//! What measures by a metric, and counts how often.
ghost use Rattle.std.specs.Prelude.{◌≡◌, ℕ, ◌+◌, ◌-◌, ◌^◌, ◌<◌, ◌↔◌, [], ◌∷◌, ◌++◌, IsTrue, OnOk, List, Option};
ghost use Rattle.metric_laws.specs.Laws.{IsDistance};
ghost use Rattle.metric_laws.specs.Log.{MeasuredPair, LogExtends};

use crate::metric::Metric;
use spb_edge::{Bytes, Memory};
use std::alloc::Global;

#[cfg(test)]
mod tests;

/// What measures distances and counts them; contracts may know a log of them.
///
/// Its kind says which objects it measures and what their distance is; no call changes it.
pub trait Ruler {
    // what is measured, and how
    ghost Kind: { Type 0 };

    ghost kind: { Self → Kind };

    // the objects that are measured
    ghost admitted: { Kind → List ℕ → Type 0 };

    // the distance of two admitted objects
    ghost dist: { Kind → List ℕ → List ℕ → ℕ };

    // how many distances were measured
    ghost count: { Self → ℕ };

    // which distances were measured, in order, if that is known
    ghost log: { Self → Option (List MeasuredPair) };

    /// Whether the ruler measures the object.
    fn admits(&self, object: &[u8]) -> bool
        ensures { IsTrue result ↔ admitted (kind self.now) object.now };

    /// The distance of two admitted objects. It is counted.
    fn measure(&mut self, a: &[u8], b: &[u8]) -> u32
        requires first { admitted (kind self.old) a.now }
        requires second { admitted (kind self.old) b.now }
        requires room { count self.old < 2 ^ 64 - 1 }
        ensures distance { result ≡ dist (kind self.old) a.now b.now }
        ensures kind { kind self.new ≡ kind self.old }
        ensures count { count self.new ≡ count self.old + 1 }
        ensures log { LogExtends (log self.old) (log self.new) ((a.now, b.now) ∷ []) };

    // the distance is a metric on the admitted objects
    ghost ruler_laws: { (k : Kind) → IsDistance (admitted k) (dist k) };
}

/// A ruler that counts. It takes no memory.
#[derive(Debug, Drop)]
pub struct Counted<M: Metric> {
    metric: M,
    count: u64,
}

impl<M: Metric> Counted<M> {
    /// A ruler by the metric, whose count is 0.
    pub fn new(metric: M) -> Counted<M>
        ensures { result ≡ record { metric = metric; count = 0 } }
    {
        Counted { metric, count: 0 }
    }

    /// How many distances it measured.
    pub fn count(&self) -> u64
        ensures { result ≡ self.now.count }
    {
        self.count
    }
}

impl<M: Metric> Ruler for Counted<M> {
    ghost use Rattle.std.specs.Prelude.{None};

    ghost Kind = { M };

    ghost kind = { λ r. r.metric };

    ghost admitted = { M.admitted };

    ghost dist = { M.dist };

    ghost count = { λ r. r.count };

    ghost log = { λ r. None };

    fn admits(&self, object: &[u8]) -> bool {
        self.metric.admits(object)
    }

    fn measure(&mut self, a: &[u8], b: &[u8]) -> u32 {
        self.count += 1;
        self.metric.distance(a, b)
    }

    ghost ruler_laws = { λ k. (M.metric_laws k).distance };
}

/// A ruler for tests, which keeps the pairs that it measured.
#[derive(Debug, Drop)]
pub struct Traced<M: Metric> {
    alloc: Global,
    ruler: Counted<M>,
    pairs: Option<Vec<(Bytes, Bytes)>>,
}

impl<M: Metric> Traced<M> {
    ghost use Rattle.std.specs.Prelude.{◌≡◌, [], Some};
    ghost use Rattle.metric_laws.specs.Meters.{known_log, trace_of};

    /// A ruler by the metric that has measured nothing. It takes no memory yet; `measure` takes as much as copies of
    /// the two objects.
    pub fn new(alloc: Global, metric: M) -> Traced<M>
        ensures { trace_of result ≡ record { metric = metric; count = 0; log = Some [] } }
    {
        Traced {
            alloc,
            ruler: Counted::new(metric),
            pairs: Some(Vec::new(alloc)),
        }
    }

    /// The pairs that it measured, in order; none, once memory ran out in a measurement.
    pub fn log(&self) -> &[(Bytes, Bytes)]
        ensures { result.now ≡ known_log (trace_of self.now).log }
    {
        match &self.pairs {
            Some(pairs) => pairs.as_slice(),
            None => &[],
        }
    }
}

impl<M: Metric> Ruler for Traced<M> {
    ghost use Rattle.metric_laws.specs.Meters.{trace_of};

    ghost Kind = { M };

    ghost kind = { λ r. r.ruler.metric };

    ghost admitted = { M.admitted };

    ghost dist = { M.dist };

    ghost count = { λ r. r.ruler.count };

    ghost log = { λ r. (trace_of r).log };

    fn admits(&self, object: &[u8]) -> bool {
        self.ruler.admits(object)
    }

    fn measure(&mut self, a: &[u8], b: &[u8]) -> u32 {
        if let Some(pairs) = &mut self.pairs {
            if noted(self.alloc, pairs, a, b).is_err() {
                self.pairs = None;
            }
        }
        self.ruler.measure(a, b)
    }

    ghost ruler_laws = { λ k. (M.metric_laws k).distance };
}

/// Appends copies of the two.
fn noted(alloc: Global, pairs: &mut Vec<(Bytes, Bytes)>, a: &[u8], b: &[u8]) -> Result<(), Memory>
    ensures { OnOk result (pairs.new.items ≡ pairs.old.items ++ (a.now, b.now) ∷ []) }
{
    let pair = (Bytes::of(alloc, a)?, Bytes::of(alloc, b)?);
    pairs.push(pair)?;
    Ok(())
}
