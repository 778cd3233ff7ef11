//! A worked example.
use super::*;
use metric_laws::Metric;
use spb_edge::Bytes;
use std::test::Fail;

// The first place weighs 5, the second 3, the others 1. From "north":
//   4 "south": first 5, third 1                 = 6
//   2 "worth": first 5                          = 5
//   3 "forty": first 5, last 1                  = 6
//   1 "nerds": second 3, fourth 1, last 1       = 5
//   7 "month": first 5, third 1                 = 6, and behind 3 and 4 by its id
// The pivot is the query itself, so each lower bound is the distance: beyond the pivot the first three are measured,
// and the other two are behind the third.
#[test]
fn the_nearest_by_weight(rt: HostRuntime) -> Result<(), Fail> {
    let alloc = rt.alloc();
    let Some(metric) = WeightedHamming::new(&[5, 3, 1, 1, 1]) else {
        return Err(Fail::new("a weight is 0"));
    };
    assert_eq!(rt; metric.top(), 11);
    let mut pivots = Vec::new(alloc);
    pivots.push(Bytes::of(alloc, b"north")?)?;
    let Some(mut index) = StringIndex::new(alloc, metric, pivots) else {
        return Err(Fail::new("the pivot has another length"));
    };
    for (id, string) in [
        (4, b"south"),
        (2, b"worth"),
        (3, b"forty"),
        (1, b"nerds"),
        (7, b"month"),
    ] {
        assert!(rt; index.add(id, string)?, "{id}");
    }
    let query = b"north";
    if !index.admits(query) {
        return Err(Fail::new("the query has another length"));
    }
    let answer = index.nearest(query, 3)?;
    assert!(rt; answer.rows.as_slice() == [(5, 1), (5, 2), (6, 3)].as_slice());
    assert_eq!(rt; answer.evals, 4);
    Ok(())
}

#[test]
fn strings_that_are_refused(rt: HostRuntime) -> Result<(), Fail> {
    let alloc = rt.alloc();
    assert!(rt; WeightedHamming::new(&[1, 0]).is_none());
    assert!(rt; WeightedHamming::new(&[u32::MAX, 1]).is_none());
    let Some(metric) = WeightedHamming::new(&[u32::MAX]) else {
        return Err(Fail::new("a weight is 0"));
    };
    let Some(mut index) = StringIndex::new(alloc, metric, Vec::new(alloc)) else {
        return Err(Fail::new("more than 8 pivots"));
    };
    assert!(rt; index.add(1, b"a")?);
    assert!(rt; !index.add(1, b"b")?);
    assert!(rt; !index.add(2, b"ab")?);
    Ok(())
}
