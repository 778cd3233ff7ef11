//! Ranges and joins, worked by hand.
use metric_laws::{Counted, Metric, Traced};
use metrics_builtin::{Hamming, L1, LInf, SetDiff};
use range_query::{JoinAnswer, RangeAnswer, join_rows, range_rows};
use row_samples::{pair, pivots_of, rows_of};
use std::alloc::Global;
use std::test::Fail;

fn ranged<M: Metric>(
    alloc: Global,
    metric: M,
    pivots: &[[u8; 8]],
    entries: &[(u32, [u8; 8])],
    q: &[u8; 8],
    r: u32,
) -> Result<RangeAnswer, Fail> {
    let pivots = pivots_of(alloc, metric, pivots)?;
    let rows = rows_of(alloc, metric, &pivots, entries)?;
    if !metric.admits(q) {
        return Err(Fail::new("the metric doesn't admit the query"));
    }
    let mut ruler = Counted::new(metric);
    Ok(range_rows(alloc, &rows, &pivots, &mut ruler, q, r)?)
}

fn joined<M: Metric>(
    alloc: Global,
    metric: M,
    pivots: &[[u8; 8]],
    left: &[(u32, [u8; 8])],
    right: &[(u32, [u8; 8])],
    r: u32,
) -> Result<JoinAnswer, Fail> {
    let pivots = pivots_of(alloc, metric, pivots)?;
    let left = rows_of(alloc, metric, &pivots, left)?;
    let right = rows_of(alloc, metric, &pivots, right)?;
    let mut ruler = Counted::new(metric);
    Ok(join_rows(alloc, &left, &right, &pivots, false, &mut ruler, r)?)
}

fn joined_with_itself<M: Metric>(
    alloc: Global,
    metric: M,
    pivots: &[[u8; 8]],
    entries: &[(u32, [u8; 8])],
    r: u32,
) -> Result<JoinAnswer, Fail> {
    let pivots = pivots_of(alloc, metric, pivots)?;
    let rows = rows_of(alloc, metric, &pivots, entries)?;
    let mut ruler = Counted::new(metric);
    Ok(join_rows(alloc, &rows, &rows, &pivots, true, &mut ruler, r)?)
}

const PLANE: L1 = L1 { dim: 2, most: 255 };

fn corners() -> [[u8; 8]; 2] {
    [pair(0, 0), pair(255, 0)]
}

fn five() -> [(u32, [u8; 8]); 5] {
    [
        (1, pair(0, 0)),
        (2, pair(3, 4)),
        (3, pair(10, 0)),
        (4, pair(100, 100)),
        (5, pair(255, 0)),
    ]
}

#[test]
fn a_range_measures_what_is_open(rt: HostRuntime) -> Result<(), Fail> {
    let near = ranged(rt.alloc(), PLANE, &corners(), &five(), &pair(3, 0), 8)?;
    assert!(rt; near.ids.as_slice() == [1, 2, 3].as_slice());
    assert_eq!(rt; near.evals, 4);
    assert_eq!(rt; near.sure, 1);
    let all = ranged(
        rt.alloc(),
        PLANE,
        &corners(),
        &five(),
        &pair(3, 0),
        4294967295,
    )?;
    assert!(rt; all.ids.as_slice() == [1, 2, 3, 4, 5].as_slice());
    assert_eq!(rt; all.evals, 2);
    assert_eq!(rt; all.sure, 5);
    let scanned = ranged(rt.alloc(), PLANE, &[], &five(), &pair(3, 0), 8)?;
    assert!(rt; scanned.ids.as_slice() == [1, 2, 3].as_slice());
    assert_eq!(rt; scanned.evals, 5);
    assert_eq!(rt; scanned.sure, 0);
    Ok(())
}

#[test]
fn a_range_asks_the_pivots_first(rt: HostRuntime) -> Result<(), Fail> {
    let pivots = pivots_of(rt.alloc(), PLANE, &corners())?;
    let rows = rows_of(rt.alloc(), PLANE, &pivots, &five())?;
    let mut ruler = Traced::new(rt.alloc(), PLANE);
    let q = pair(3, 0);
    if !PLANE.admits(&q) {
        return Err(Fail::new("the metric doesn't admit the query"));
    }
    range_rows(rt.alloc(), &rows, &pivots, &mut ruler, &q, 8)?;
    let measured = [pair(0, 0), pair(255, 0), pair(3, 4), pair(10, 0)];
    assert_eq!(rt; ruler.log().len(), 4);
    for (seen, object) in ruler.log().iter().zip(&measured) {
        assert!(rt; seen.0.as_slice() == q.as_slice());
        assert!(rt; seen.1.as_slice() == object.as_slice());
    }
    Ok(())
}

#[test]
fn a_join_of_two_collections(rt: HostRuntime) -> Result<(), Fail> {
    let left = [(1, pair(0, 0)), (2, pair(3, 4))];
    let right = [(1, pair(1, 1)), (9, pair(3, 5))];
    let answer = joined(rt.alloc(), PLANE, &corners(), &left, &right, 3)?;
    assert!(rt; answer.pairs.as_slice() == [(1, 1), (2, 9)].as_slice());
    assert_eq!(rt; answer.evals, 1);
    assert_eq!(rt; answer.sure, 1);
    Ok(())
}

#[test]
fn a_join_measures_the_open_pairs(rt: HostRuntime) -> Result<(), Fail> {
    let pivots = pivots_of(rt.alloc(), PLANE, &corners())?;
    let three = [(9, pair(2, 2)), (1, pair(1, 1)), (4, pair(2, 1))];
    let rows = rows_of(rt.alloc(), PLANE, &pivots, &three)?;
    let mut ruler = Traced::new(rt.alloc(), PLANE);
    join_rows(rt.alloc(), &rows, &rows, &pivots, true, &mut ruler, 1)?;
    // (1, 1) and (2, 2) are apart: their distances to the first pivot are 2 and 4.
    assert_eq!(rt; ruler.log().len(), 2);
    for (left, right) in [(pair(1, 1), pair(2, 1)), (pair(2, 1), pair(2, 2))] {
        assert!(rt;
            ruler.log().iter().any(|seen| {
                seen.0.as_slice() == left.as_slice() && seen.1.as_slice() == right.as_slice()
            })
        );
    }
    Ok(())
}

#[test]
fn a_join_with_itself_in_any_order(rt: HostRuntime) -> Result<(), Fail> {
    let twins = [(1, pair(7, 7)), (2, pair(7, 7))];
    let answer = joined_with_itself(rt.alloc(), PLANE, &corners(), &twins, 0)?;
    assert!(rt; answer.pairs.as_slice() == [(1, 2)].as_slice());
    assert_eq!(rt; answer.evals, 1);
    assert_eq!(rt; answer.sure, 0);
    let three = [(9, pair(2, 2)), (1, pair(1, 1)), (4, pair(2, 1))];
    let answer = joined_with_itself(rt.alloc(), PLANE, &corners(), &three, 1)?;
    assert!(rt; answer.pairs.as_slice() == [(1, 4), (4, 9)].as_slice());
    assert_eq!(rt; answer.evals, 2);
    Ok(())
}

#[test]
fn each_metric_has_ranges_and_joins(rt: HostRuntime) -> Result<(), Fail> {
    let alloc = rt.alloc();
    let squares = LInf { dim: 2, most: 255 };
    let found = ranged(alloc, squares, &corners(), &five(), &pair(3, 0), 8)?;
    assert!(rt; found.ids.as_slice() == [1, 2, 3].as_slice());
    let found = joined_with_itself(alloc, squares, &corners(), &five(), 7)?;
    assert!(rt; found.pairs.as_slice() == [(1, 2), (2, 3)].as_slice());
    let words = Hamming { len: 8 };
    let three = [(1, *b"abcdefgh"), (2, *b"abcdefgx"), (3, *b"xbcdefgx")];
    let found = ranged(alloc, words, &[*b"abcdefgh"], &three, b"abcdefgy", 1)?;
    assert!(rt; found.ids.as_slice() == [1, 2].as_slice());
    let found = joined_with_itself(alloc, words, &[*b"abcdefgh"], &three, 1)?;
    assert!(rt; found.pairs.as_slice() == [(1, 2), (2, 3)].as_slice());
    let sets = SetDiff {
        universe: 256,
        most: 2,
    };
    let three = [(1, pair(1, 2)), (2, pair(2, 3)), (3, pair(4, 5))];
    let found = joined(alloc, sets, &[pair(1, 2)], &three, &three, 2)?;
    let near = [(1, 1), (1, 2), (2, 1), (2, 2), (3, 3)];
    assert!(rt; found.pairs.as_slice() == near.as_slice());
    let found = ranged(alloc, sets, &[pair(1, 2)], &three, &pair(2, 4), 2)?;
    assert!(rt; found.ids.as_slice() == [1, 2, 3].as_slice());
    Ok(())
}
