//! Vectors and pairs of them, worked by hand.
ghost use Rattle.std.specs.Prelude.{◌≡◌, ◌<◌};

use pivot_map::{PairTest, Steps, Vect, lower, meets, pair_test, sure, test_pair};
use std::marker::Brand;
use std::sync::ledger::{Blank, Ledger};

#[test]
fn pairs_by_the_radius(rt: HostRuntime) {
    // The differences are 2 and 6, the sums 8 and 14.
    let a = Vect::of(&[3, 10]);
    let b = Vect::of(&[5, 4]);
    assert!(rt; lower(&a, &b) == 6);
    assert!(rt; lower(&b, &a) == 6);
    assert!(rt; test_pair(&a, &b, 5) == PairTest::Apart);
    assert!(rt; test_pair(&a, &b, 6) == PairTest::Open);
    assert!(rt; test_pair(&a, &b, 7) == PairTest::Open);
    assert!(rt; test_pair(&a, &b, 8) == PairTest::Sure);
    assert!(rt; test_pair(&a, &a, 0) == PairTest::Open);
    assert!(rt; test_pair(&Vect::of(&[0]), &Vect::of(&[0]), 0) == PairTest::Sure);
}

#[test]
fn one_coordinate_keeps_apart(rt: HostRuntime) {
    // No two objects have these vectors: the first coordinate makes them near, the second far.
    let a = Vect::of(&[1, 10, 1]);
    let b = Vect::of(&[1, 4, 1]);
    assert!(rt; sure(&a, &b, 2));
    assert!(rt; !meets(&a, &b, 2));
    assert!(rt; lower(&a, &b) == 6);
    assert!(rt; test_pair(&a, &b, 2) == PairTest::Apart);
}

#[test]
fn sums_past_32_bits(rt: HostRuntime) {
    let far = Vect::of(&[4294967295]);
    let one = Vect::of(&[1]);
    let none = Vect::of(&[0]);
    assert!(rt; !sure(&far, &one, 4294967295));
    assert!(rt; test_pair(&far, &one, 4294967295) == PairTest::Open);
    assert!(rt; test_pair(&far, &far, 4294967295) == PairTest::Open);
    assert!(rt; test_pair(&far, &none, 4294967295) == PairTest::Sure);
    assert!(rt; test_pair(&far, &none, 4294967294) == PairTest::Apart);
    assert!(rt; lower(&far, &none) == 4294967295);
}

#[test]
fn no_coordinates_tell_nothing(rt: HostRuntime) {
    let none = Vect::of(&[]);
    for r in [0, 4294967295] {
        assert!(rt; meets(&none, &none, r));
        assert!(rt; !sure(&none, &none, r));
        assert!(rt; test_pair(&none, &none, r) == PairTest::Open);
    }
    assert!(rt; lower(&none, &none) == 0);
}

#[test]
fn the_last_of_eight_counts(rt: HostRuntime) {
    let a = Vect::of(&[9, 9, 9, 9, 9, 9, 9, 2]);
    let b = Vect::of(&[9, 9, 9, 9, 9, 9, 9, 7]);
    assert!(rt; lower(&a, &b) == 5);
    assert!(rt; test_pair(&a, &b, 4) == PairTest::Apart);
    assert!(rt; test_pair(&a, &b, 8) == PairTest::Open);
    assert!(rt; test_pair(&a, &b, 9) == PairTest::Sure);
}

// Two tests of pairs, counted in a ledger that is handed in.
fn tested_twice<L: Ledger>(blank: Blank) -> (PairTest, PairTest)
    requires name { blank.name ≡ L.name }
    requires parts { blank.parts ≡ L.parts }
    requires some { 0 < blank.parts }
{
    let mut steps = Steps::<L>::new(blank);
    let a = Vect::of(&[3]);
    let near = pair_test(&a, &Vect::of(&[5]), 2, &mut steps);
    let far = pair_test(&a, &Vect::of(&[6]), 2, &mut steps);
    (near, far)
}

#[test]
fn counted_tests_tell_the_same(rt: HostRuntime) {
    let (near, far) = tested_twice::<Brand>(Blank::new(1));
    assert!(rt; near == PairTest::Open);
    assert!(rt; far == PairTest::Apart);
}
