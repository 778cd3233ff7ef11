//! The verdict on two objects.
ghost use Rattle.std.specs.Prelude.{◌≡◌, ◌+◌, ◌-◌, ◌^◌, ◌<◌, ◌∷◌, [], IsTrue, if◌then◌else◌, nat_le};
ghost use Rattle.metric_laws.specs.Log.{LogExtends};
ghost use Rattle.pivot_map.specs.Verdicts.{test_is_open};
ghost use Rattle.spb_edge.specs.Counts.{one_if};
ghost use Rattle.query_pass.specs.Verdicts.{verdict_of, was_measured};

use metric_laws::Ruler;
use pivot_map::PairTest;

/// The verdict on two objects and a radius.
#[derive(Clone, Copy, Debug, PartialEq, Eq)]
pub enum Verdict {
    /// A pivot shows that they are further apart.
    Apart,
    /// A pivot shows that they are within the radius.
    Sure,
    /// Their distance was measured, and is within or isn't.
    Measured(bool),
}

impl Verdict {
    ghost use Rattle.std.specs.Prelude.{◌≡◌};
    ghost use Rattle.query_pass.specs.Verdicts.{is_within, was_measured, was_sure};

    /// Whether the objects are within the radius of each other.
    pub fn is_within(self) -> bool
        ensures { result ≡ is_within self }
    {
        matches!(self, Verdict::Sure | Verdict::Measured(true))
    }

    /// Whether their distance was measured.
    pub fn was_measured(self) -> bool
        ensures { result ≡ was_measured self }
    {
        matches!(self, Verdict::Measured(_))
    }

    /// Whether they are within by the pivots alone.
    pub fn was_sure(self) -> bool
        ensures { result ≡ was_sure self }
    {
        matches!(self, Verdict::Sure)
    }
}

/// The verdict on two objects and the radius `r`, by the test of their vectors.
///
/// It measures the two if that is [`PairTest::Open`], once. Otherwise it looks at neither, and the two
/// may be anything: a caller that would have to fetch them first does so only for an open pair. It takes
/// no memory.
pub fn judge_by<R: Ruler>(
    ruler: &mut R,
    test: PairTest,
    object: &[u8],
    other: &[u8],
    r: u32,
) -> Verdict
    requires first { IsTrue (test_is_open test) → R.admitted (R.kind ruler.old) object.now }
    requires second { IsTrue (test_is_open test) → R.admitted (R.kind ruler.old) other.now }
    requires room { R.count ruler.old < 2 ^ 64 - 1 }
    ensures verdict { result ≡ verdict_of test (nat_le (R.dist (R.kind ruler.old) object.now other.now) r) }
    ensures count { R.count ruler.new ≡ R.count ruler.old + one_if (was_measured result) }
    ensures log { LogExtends (R.log ruler.old) (R.log ruler.new) (if was_measured result then (object.now, other.now) ∷ [] else []) }
    ensures kind { R.kind ruler.new ≡ R.kind ruler.old }
{
    match test {
        PairTest::Apart => Verdict::Apart,
        PairTest::Sure => Verdict::Sure,
        PairTest::Open => Verdict::Measured(ruler.measure(object, other) <= r),
    }
}
