//! The nearest, worked by hand.
ghost use Rattle.std.specs.Prelude.{◌≤◌};

use metric_laws::{Counted, Metric, Traced};
use metrics_builtin::{Hamming, L1, LInf, SetDiff};
use nn_query::{NearAnswer, near_rows};
use row_samples::{pair, pivots_of, rows_of};
use std::alloc::Global;
use std::test::Fail;

fn nearest<M: Metric>(
    alloc: Global,
    metric: M,
    pivots: &[[u8; 8]],
    entries: &[(u32, [u8; 8])],
    q: &[u8; 8],
    k: u32,
) -> Result<NearAnswer, Fail>
    requires { 1 ≤ k }
{
    let pivots = pivots_of(alloc, metric, pivots)?;
    let rows = rows_of(alloc, metric, &pivots, entries)?;
    if !metric.admits(q) {
        return Err(Fail::new("the metric doesn't admit the query"));
    }
    let mut ruler = Counted::new(metric);
    Ok(near_rows(alloc, &rows, &pivots, &mut ruler, q, k)?)
}

const PLANE: L1 = L1 { dim: 2, most: 255 };

fn corners() -> [[u8; 8]; 2] {
    [pair(0, 0), pair(255, 0)]
}

#[test]
fn the_pivots_spare_those_behind_the_last(rt: HostRuntime) -> Result<(), Fail> {
    let alloc = rt.alloc();
    let five = [
        (1, pair(0, 0)),
        (2, pair(3, 4)),
        (3, pair(10, 0)),
        (4, pair(100, 100)),
        (5, pair(255, 0)),
    ];
    let two = nearest(alloc, PLANE, &corners(), &five, &pair(3, 0), 2)?;
    assert!(rt; two.rows.as_slice() == [(3, 1), (4, 2)].as_slice());
    assert_eq!(rt; two.evals, 4);
    let all = nearest(alloc, PLANE, &corners(), &five, &pair(3, 0), 9)?;
    let ranks = [(3, 1), (4, 2), (7, 3), (197, 4), (252, 5)];
    assert!(rt; all.rows.as_slice() == ranks.as_slice());
    assert_eq!(rt; all.evals, 7);
    Ok(())
}

#[test]
fn of_equal_distances_the_lesser_id(rt: HostRuntime) -> Result<(), Fail> {
    let alloc = rt.alloc();
    let farther = [(9, pair(0, 2)), (3, pair(6, 0))];
    let one = nearest(alloc, PLANE, &[pair(0, 0)], &farther, &pair(2, 0), 1)?;
    assert!(rt; one.rows.as_slice() == [(4, 3)].as_slice());
    assert_eq!(rt; one.evals, 3);
    let beside = [(8, pair(1, 0)), (7, pair(0, 1))];
    let one = nearest(alloc, PLANE, &corners(), &beside, &pair(0, 0), 1)?;
    assert!(rt; one.rows.as_slice() == [(1, 7)].as_slice());
    assert_eq!(rt; one.evals, 3);
    Ok(())
}

// A ruler without a log would have no pairs.
#[test]
fn the_pivots_are_asked_first(rt: HostRuntime) -> Result<(), Fail> {
    let pivots = pivots_of(rt.alloc(), PLANE, &[pair(0, 0)])?;
    let entries = [(3, pair(6, 0)), (9, pair(0, 2))];
    let rows = rows_of(rt.alloc(), PLANE, &pivots, &entries)?;
    let mut ruler = Traced::new(rt.alloc(), PLANE);
    let q = pair(2, 0);
    if !PLANE.admits(&q) {
        return Err(Fail::new("the metric doesn't admit the query"));
    }
    near_rows(rt.alloc(), &rows, &pivots, &mut ruler, &q, 1)?;
    let measured = [pair(0, 0), pair(0, 2), pair(6, 0)];
    assert_eq!(rt; ruler.log().len(), 3);
    for (seen, object) in ruler.log().iter().zip(&measured) {
        assert!(rt; seen.0.as_slice() == q.as_slice());
        assert!(rt; seen.1.as_slice() == object.as_slice());
    }
    Ok(())
}

#[test]
fn many_of_none(rt: HostRuntime) -> Result<(), Fail> {
    let none = nearest(rt.alloc(), PLANE, &corners(), &[], &pair(3, 0), 65536)?;
    assert!(rt; none.rows.as_slice().is_empty());
    assert_eq!(rt; none.evals, 2);
    Ok(())
}

#[test]
fn each_metric_has_nearest(rt: HostRuntime) -> Result<(), Fail> {
    let alloc = rt.alloc();
    let squares = LInf { dim: 2, most: 255 };
    let points = [(1, pair(4, 9)), (2, pair(5, 1))];
    let one = nearest(alloc, squares, &[pair(0, 0)], &points, &pair(3, 0), 1)?;
    assert!(rt; one.rows.as_slice() == [(2, 2)].as_slice());
    assert_eq!(rt; one.evals, 2);
    let strings = Hamming { len: 8 };
    let words = [(1, *b"aaaaaabb"), (2, *b"bbbbbbbb")];
    let one = nearest(alloc, strings, &[*b"aaaaaaaa"], &words, b"aaaaaaab", 1)?;
    assert!(rt; one.rows.as_slice() == [(1, 1)].as_slice());
    assert_eq!(rt; one.evals, 2);
    let sets = SetDiff {
        universe: 256,
        most: 2,
    };
    let members = [(1, pair(1, 3)), (2, pair(5, 6))];
    let two = nearest(alloc, sets, &[pair(1, 2)], &members, &pair(1, 3), 2)?;
    assert!(rt; two.rows.as_slice() == [(0, 1), (4, 2)].as_slice());
    assert_eq!(rt; two.evals, 3);
    Ok(())
}
