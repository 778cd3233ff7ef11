//! Worked samples: which places are chosen, and what is measured for them.
ghost use Rattle.std.specs.Prelude.{◌^◌, ◌<◌, All, IfOk};

use metric_laws::{Counted, Ruler, Traced};
use metrics_builtin::L1;
use pivot_choice::choose;
use pivot_map::Ids;
use spb_edge::{Bytes, Memory};
use std::alloc::Global;
use std::test::Fail;

/// The points as objects, all that the ruler measures.
fn objects_of<R: Ruler>(alloc: Global, ruler: &R, points: &[(u8, u8)]) -> Result<Vec<Bytes>, Memory>
    ensures { IfOk result (λ objects. All (R.admitted (R.kind ruler.now)) objects.items) }
{
    let mut objects = Vec::new(alloc);
    for &(x, y) in points {
        let object = Bytes::of(alloc, &[0, 0, 0, x, 0, 0, 0, y])?;
        if ruler.admits(object.as_slice()) {
            objects.push(object)?;
        }
    }
    Ok(objects)
}

/// The places of `n` of the points; none, if there aren't that many.
fn chosen<R: Ruler>(
    alloc: Global,
    ruler: &mut R,
    points: &[(u8, u8)],
    n: usize,
) -> Result<Ids, Memory>
    requires { R.count ruler.old < 2 ^ 63 }
{
    let sample = objects_of(alloc, ruler, points)?;
    if n > sample.len() || sample.len() > 1 << 31 {
        return Ids::of(alloc, &[]);
    }
    choose(alloc, ruler, sample.as_slice(), n)
}

#[test]
fn places_by_the_sums_of_distances(rt: HostRuntime) -> Result<(), Fail> {
    let corners = [(0, 0), (255, 0), (0, 255)];
    let spread = [(5, 5), (6, 5), (0, 0), (200, 200), (5, 6)];
    let equal = [(5, 5), (5, 5), (5, 5)];
    for (points, n, places, count) in [
        (corners.as_slice(), 1, [0].as_slice(), 0),
        (corners.as_slice(), 2, [0, 1].as_slice(), 2),
        (corners.as_slice(), 3, [0, 1, 2].as_slice(), 3),
        (spread.as_slice(), 4, [0, 3, 2, 1].as_slice(), 9),
        (spread.as_slice(), 5, [0, 3, 2, 1, 4].as_slice(), 10),
        (equal.as_slice(), 3, [0, 1, 2].as_slice(), 3),
        ([].as_slice(), 0, [].as_slice(), 0),
    ] {
        let mut ruler = Counted::new(L1 { dim: 2, most: 255 });
        let answer = chosen(rt.alloc(), &mut ruler, points, n)?;
        assert!(rt; answer.as_slice() == places, "{n} of {points:?}");
        assert_eq!(rt; ruler.count(), count, "for {n} of {points:?}");
    }
    Ok(())
}

#[test]
fn each_chosen_one_with_those_that_are_left(rt: HostRuntime) -> Result<(), Fail> {
    let mut ruler = Traced::new(rt.alloc(), L1 { dim: 2, most: 255 });
    let points = [(0, 0), (0, 1), (0, 2)];
    let places = chosen(rt.alloc(), &mut ruler, &points, 3)?;
    assert!(rt; places.as_slice() == [0, 2, 1].as_slice());
    assert_eq!(rt; ruler.log().len(), 3);
    for (pair, (a, b)) in ruler.log().iter().zip([(0, 1), (0, 2), (2, 1)]) {
        assert_eq!(rt; pair.0.as_slice().last(), Some(&a));
        assert_eq!(rt; pair.1.as_slice().last(), Some(&b));
    }
    Ok(())
}
