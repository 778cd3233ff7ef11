ghost use Rattle.std.specs.Prelude.{◌≡◌, ◌+◌, ◌-◌, ◌^◌, ◌<◌, ◌≤◌};

use metric_laws::{Counted, Metric, Ruler, Traced, bounds_by_pivots, obeys_laws};
use metrics_builtin::{Hamming, L1, LInf, SetDiff, Space};

// the distance of two objects, if the metric admits both
fn measured<M: Metric>(metric: &M, a: &[u8], b: &[u8]) -> Option<u32> {
    obeys_laws(metric);
    bounds_by_pivots(metric);
    if metric.admits(a) && metric.admits(b) {
        Some(metric.distance(a, b))
    } else {
        None
    }
}

// the object of two numbers below 256
fn pair(x: u8, y: u8) -> [u8; 8] {
    [0, 0, 0, x, 0, 0, 0, y]
}

// the object of three numbers below 256
fn triple(x: u8, y: u8, z: u8) -> [u8; 12] {
    [0, 0, 0, x, 0, 0, 0, y, 0, 0, 0, z]
}

#[test]
fn sums_of_differences(rt: HostRuntime) {
    let metric = L1 { dim: 2, most: 255 };
    assert_eq!(rt; metric.top(), 510);
    for (a, b, distance) in [
        (pair(0, 0), pair(3, 4), 7),
        (pair(3, 0), pair(255, 0), 252),
        (pair(0, 0), pair(255, 0), 255),
        (pair(10, 10), pair(0, 0), 20),
        (pair(10, 10), pair(10, 10), 0),
    ] {
        assert_eq!(rt;
            measured(&metric, &a, &b),
            Some(distance),
            "from {a:?} to {b:?}"
        );
    }
}

#[test]
fn sums_over_sixteen_components(rt: HostRuntime) {
    let metric = L1 { dim: 16, most: 255 };
    let mut far = [0; 64];
    for i in 0..16 {
        far[4 * i + 3] = 255;
    }
    assert_eq!(rt; metric.top(), 4080);
    assert_eq!(rt; measured(&metric, &[0; 64], &far), Some(4080));
}

#[test]
fn greatest_differences(rt: HostRuntime) {
    let metric = LInf { dim: 2, most: 255 };
    assert_eq!(rt; metric.top(), 255);
    for (a, b, distance) in [
        (pair(3, 4), pair(0, 0), 4),
        (pair(4, 3), pair(0, 0), 4),
        (pair(0, 9), pair(255, 0), 255),
        (pair(10, 10), pair(10, 10), 0),
    ] {
        assert_eq!(rt;
            measured(&metric, &a, &b),
            Some(distance),
            "from {a:?} to {b:?}"
        );
    }
    assert_eq!(rt; measured(&metric, &[0; 8], &[0, 0, 1, 0, 0, 0, 0, 0]), None);
}

#[test]
fn places_that_differ(rt: HostRuntime) {
    let metric = Hamming { len: 3 };
    assert_eq!(rt; metric.top(), 3);
    assert_eq!(rt; measured(&metric, b"abc", b"abd"), Some(1));
    assert_eq!(rt; measured(&metric, b"abc", b"bca"), Some(3));
    assert_eq!(rt; measured(&metric, b"abc", b"abc"), Some(0));
    assert_eq!(rt; measured(&metric, b"abc", b"abcd"), None);
}

#[test]
fn elements_of_one_set_alone(rt: HostRuntime) {
    let metric = SetDiff {
        universe: 100,
        most: 5,
    };
    assert_eq!(rt; metric.top(), 10);
    let (a, b) = (triple(1, 2, 3), triple(2, 3, 4));
    let query = pair(2, 3);
    assert_eq!(rt; measured(&metric, &query, &a), Some(1));
    assert_eq!(rt; measured(&metric, &query, &b), Some(1));
    assert_eq!(rt; measured(&metric, &a, &b), Some(2));
    assert_eq!(rt; measured(&metric, &a, &[]), Some(3));
    assert_eq!(rt; measured(&metric, &[], &[]), Some(0));
    assert_eq!(rt; measured(&metric, &a, &triple(7, 8, 99)), Some(6));
}

#[test]
fn few_elements_are_the_bound_of_a_small_universe(rt: HostRuntime) {
    let metric = SetDiff {
        universe: 7,
        most: 5,
    };
    assert_eq!(rt; metric.top(), 7);
}

#[test]
fn admits_vectors(rt: HostRuntime) {
    let metric = L1 { dim: 2, most: 255 };
    let objects: [(&[u8], bool); 7] = [
        (&[0, 0, 0, 0, 0, 0, 0, 0], true),
        (&[0, 0, 0, 255, 0, 0, 0, 255], true),
        (&[0, 0, 1, 0, 0, 0, 0, 0], false),
        (&[0, 0, 0, 0, 0, 0, 1, 0], false),
        (&[0, 0, 0, 0, 0, 0, 0], false),
        (&[0, 0, 0, 0, 0, 0, 0, 0, 0, 0, 0, 0], false),
        (&[], false),
    ];
    for (object, admitted) in objects {
        assert_eq!(rt; metric.admits(object), admitted, "at {object:?}");
    }
}

#[test]
fn admits_sets(rt: HostRuntime) {
    let metric = SetDiff {
        universe: 100,
        most: 2,
    };
    let objects: [(&[u8], bool); 7] = [
        (&[], true),
        (&[0, 0, 0, 0, 0, 0, 0, 99], true),
        (&[0, 0, 0, 5, 0, 0, 0, 5], false),
        (&[0, 0, 0, 5, 0, 0, 0, 4], false),
        (&[0, 0, 0, 100], false),
        (&[0, 0, 0], false),
        (&[0, 0, 0, 1, 0, 0, 0, 2, 0, 0, 0, 3], false),
    ];
    for (object, admitted) in objects {
        assert_eq!(rt; metric.admits(object), admitted, "at {object:?}");
    }
}

#[test]
fn spaces_that_fit(rt: HostRuntime) {
    for (space, fits) in [
        (Space::L1 { dim: 1, most: 1 }, true),
        (Space::L1 { dim: 31, most: 255 }, false),
        (Space::L1 { dim: 0, most: 1 }, false),
        (Space::L1 { dim: 2, most: 0 }, false),
        (
            Space::L1 {
                dim: 30,
                most: 143165576,
            },
            true,
        ),
        (
            Space::L1 {
                dim: 30,
                most: 143165577,
            },
            false,
        ),
        (
            Space::LInf {
                dim: 30,
                most: 4294967295,
            },
            true,
        ),
        (Space::LInf { dim: 31, most: 1 }, false),
        (Space::LInf { dim: 1, most: 0 }, false),
        (Space::Hamming { len: 0 }, false),
        (Space::Hamming { len: 120 }, true),
        (Space::Hamming { len: 121 }, false),
        (
            Space::Sets {
                universe: 4294967295,
                most: 30,
            },
            true,
        ),
        (
            Space::Sets {
                universe: 0,
                most: 1,
            },
            false,
        ),
        (
            Space::Sets {
                universe: 1,
                most: 31,
            },
            false,
        ),
        (
            Space::Sets {
                universe: 1,
                most: 0,
            },
            false,
        ),
    ] {
        assert_eq!(rt; space.fits(), fits, "{space:?}");
    }
}

// the number of bits of a space that fits
fn bits_of(space: Space) -> Option<u8> {
    if space.fits() {
        Some(space.bits())
    } else {
        None
    }
}

#[test]
fn bits_of_distances(rt: HostRuntime) {
    for (space, bits) in [
        (Space::L1 { dim: 2, most: 255 }, 9),
        (Space::L1 { dim: 16, most: 255 }, 12),
        (Space::L1 { dim: 4, most: 1000 }, 12),
        (Space::L1 { dim: 1, most: 1 }, 1),
        (Space::LInf { dim: 2, most: 255 }, 8),
        (Space::LInf { dim: 2, most: 256 }, 9),
        (Space::Hamming { len: 3 }, 2),
        (Space::Hamming { len: 120 }, 7),
        (
            Space::Sets {
                universe: 100,
                most: 5,
            },
            4,
        ),
        (
            Space::L1 {
                dim: 1,
                most: 4294967295,
            },
            32,
        ),
    ] {
        assert_eq!(rt; bits_of(space), Some(bits), "{space:?}");
    }
}

// the distance by the ruler, if it admits both
fn ruled<R: Ruler>(ruler: &mut R, a: &[u8], b: &[u8]) -> Option<u32>
    requires room { R.count ruler.old < 2 ^ 64 - 1 }
    ensures count { R.count ruler.new ≤ R.count ruler.old + 1 }
{
    if ruler.admits(a) && ruler.admits(b) {
        Some(ruler.measure(a, b))
    } else {
        None
    }
}

#[test]
fn measurements_are_counted(rt: HostRuntime) {
    let mut ruler = Counted::new(Hamming { len: 3 });
    assert_eq!(rt; ruler.count(), 0);
    assert_eq!(rt; ruled(&mut ruler, b"abc", b"abd"), Some(1));
    assert_eq!(rt; ruler.count(), 1);
    assert_eq!(rt; ruled(&mut ruler, b"abc", b"abcd"), None);
    assert_eq!(rt; ruler.count(), 1);
    assert_eq!(rt; ruled(&mut ruler, b"abc", b"abc"), Some(0));
    assert_eq!(rt; ruler.count(), 2);
}

#[test]
fn measurements_are_told_in_order(rt: HostRuntime) {
    let mut ruler = Traced::new(rt.alloc(), Hamming { len: 2 });
    assert!(rt; ruler.log().is_empty());
    assert_eq!(rt; ruled(&mut ruler, b"xy", b"yx"), Some(2));
    assert_eq!(rt; ruled(&mut ruler, b"xy", b"x"), None);
    assert_eq!(rt; ruled(&mut ruler, b"ab", b"aa"), Some(1));
    let log = ruler.log();
    assert_eq!(rt; log.len(), 2);
    assert_eq!(rt; log[0].0.as_slice(), b"xy".as_slice());
    assert_eq!(rt; log[0].1.as_slice(), b"yx".as_slice());
    assert_eq!(rt; log[1].0.as_slice(), b"ab".as_slice());
    assert_eq!(rt; log[1].1.as_slice(), b"aa".as_slice());
}
