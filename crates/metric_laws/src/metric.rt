//! What a metric on byte strings is.
ghost use Rattle.std.specs.Prelude.{◌≡◌, ℕ, ◌↔◌, IsTrue, List};
ghost use Rattle.metric_laws.specs.Laws.{IsMetric};
ghost use Rattle.metric_laws.specs.Pivots.{BoundByPivots};

/// A metric on byte strings, whose laws are proved for each type that implements it.
///
/// A metric admits some byte strings, its objects, and gives any two of them a distance, a whole
/// number of at most `top`. Objects are at distance 0 exactly if they are equal, the distance is
/// symmetric, and the triangle inequality holds.
pub trait Metric: Copy {
    // the objects that the metric measures
    ghost admitted: { Self → List ℕ → Type 0 };

    // the distance of two admitted objects
    ghost dist: { Self → List ℕ → List ℕ → ℕ };

    // a bound of every distance
    ghost top: { Self → ℕ };

    /// Whether the metric measures the object.
    fn admits(&self, object: &[u8]) -> bool
        ensures { IsTrue result ↔ admitted self.now object.now };

    /// The distance of two admitted objects.
    fn distance(&self, a: &[u8], b: &[u8]) -> u32
        requires first { admitted self.now a.now }
        requires second { admitted self.now b.now }
        ensures { result ≡ dist self.now a.now b.now };

    /// An upper bound of the distances of admitted objects.
    fn top(&self) -> u32
        ensures { result ≡ top self.now };

    // the distance is a metric on the admitted objects, and the top bounds it
    ghost metric_laws: { (m : Self) → IsMetric (admitted m) (dist m) (top m) };
}

/// The laws of any metric, as a contract: the call does nothing.
pub fn obeys_laws<M: Metric>(metric: &M)
    ensures { IsMetric (M.admitted metric.now) (M.dist metric.now) (M.top metric.now) }
{}

/// The bounds of a distance by the distances to a third object, a pivot, as a contract: the distances
/// of two objects to a pivot differ by no more than the distance of the two, and their sum is no less.
/// They follow from the laws alone. The call does nothing.
pub fn bounds_by_pivots<M: Metric>(metric: &M)
    ensures { BoundByPivots (M.admitted metric.now) (M.dist metric.now) }
{}
