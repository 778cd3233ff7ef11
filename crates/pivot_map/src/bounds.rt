//! The bounds that pivots set to a distance, as contracts.
ghost use Rattle.std.specs.Prelude.{ℕ, List, All};
ghost use Rattle.spb_defs.specs.Pivots.{vector_of, cells_of};
ghost use Rattle.pivot_map.specs.Bounds.{BoundsHold};
ghost use Rattle.pivot_map.specs.Verdicts.{query_verdict, pair_verdict, IsSoundTest};

use metric_laws::{Metric, Ruler};
use spb_edge::Bytes;

/// The bounds that pivots set to the distances of a ruler, as a contract: what is within a radius meets, what is
/// sure is within it, and nothing is nearer than its lower bound. They follow from the laws of a distance alone.
/// The call does nothing.
pub fn bounds_hold<R: Ruler>(ruler: &R, pivots: &[Bytes])
    requires pivots { All (R.admitted (R.kind ruler.now)) pivots.now }
    ensures { BoundsHold (R.admitted (R.kind ruler.now)) (R.dist (R.kind ruler.now)) pivots.now }
{}

/// The bounds that pivots set to the distances of a metric, as a contract. The call does nothing.
pub fn bounds_of_metric<M: Metric>(metric: &M, pivots: &[Bytes])
    requires pivots { All (M.admitted metric.now) pivots.now }
    ensures { BoundsHold (M.admitted metric.now) (M.dist metric.now) pivots.now }
{}

/// What the tests by the pivots say of a distance, as a contract: two objects, or a query and an object, that are apart
/// are further from each other than the radius, and two that are sure are within it. The call does nothing.
pub fn verdicts_hold<R: Ruler>(ruler: &R, pivots: &[Bytes])
    requires pivots { All (R.admitted (R.kind ruler.now)) pivots.now }
    ensures query { (q o : List ℕ) (radius : ℕ) → R.admitted (R.kind ruler.now) q → R.admitted (R.kind ruler.now) o
        → IsSoundTest (query_verdict (vector_of (R.dist (R.kind ruler.now)) pivots.now q) radius (cells_of (R.dist (R.kind ruler.now)) pivots.now o))
        (R.dist (R.kind ruler.now) q o) radius }
    ensures pair { (a b : List ℕ) (radius : ℕ) → R.admitted (R.kind ruler.now) a → R.admitted (R.kind ruler.now) b
        → IsSoundTest (pair_verdict (cells_of (R.dist (R.kind ruler.now)) pivots.now a) radius (cells_of (R.dist (R.kind ruler.now)) pivots.now b))
        (R.dist (R.kind ruler.now) a b) radius }
{}
