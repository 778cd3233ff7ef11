//! Whether the pivots decide if a distance is within a radius.
ghost use Rattle.std.specs.Prelude.{◌≡◌, ◌+◌, length};
ghost use Rattle.pivot_map.specs.Verdicts.{query_verdict, pair_verdict};

use crate::steps::Steps;
use crate::vectors::{meets, sure};
use curve_laws::Vect;
use std::sync::ledger::Ledger;

/// Whether two objects are within a radius of each other, as far as their distances to the pivots decide it.
#[derive(Clone, Copy, Debug, PartialEq, Eq)]
pub enum PairTest {
    /// They aren't: some pivot shows that they are further apart.
    Apart,
    /// Their distance has to be measured.
    Open,
    /// They are: no pivot shows that they are further apart, and some pivot shows that they are not.
    Sure,
}

/// Tests a query, by its distances to the pivots, and an object, by its cells; the two have the same length. It looks
/// at each coordinate once if they are apart, and at most twice otherwise, and takes no memory.
pub fn test_query(q: &Vect, o: &Vect, r: u32) -> PairTest
    requires { length q.now ≡ length o.now }
    ensures { result ≡ query_verdict q.now r o.now }
{
    if !meets(q, o, r) {
        return PairTest::Apart;
    }
    if sure(q, o, r) {
        return PairTest::Sure;
    }
    PairTest::Open
}

/// Tests two objects by their cells, which have the same length. A cell is one distance, so the test is that of a query
/// and an object.
pub fn test_pair(a: &Vect, b: &Vect, r: u32) -> PairTest
    requires { length a.now ≡ length b.now }
    ensures { result ≡ pair_verdict a.now r b.now }
{
    test_query(a, b, r)
}

/// The same test of two objects, counted as one step.
pub fn pair_test<L: Ledger>(a: &Vect, b: &Vect, r: u32, steps: &mut Steps<L>) -> PairTest
    requires { length a.now ≡ length b.now }
    ensures verdict { result ≡ pair_verdict a.now r b.now }
    ensures cost { steps.new ≡ steps.old + 1 }
{
    steps.tick();
    test_pair(a, b, r)
}
