//! Vectors as lists.
use curve_laws::{Grid, Vect};

#[test]
fn coordinates_come_back(rt: HostRuntime) {
    for coordinates in [[1, 2, 3, 4, 5, 6, 7, 4294967295], [0; 8]] {
        let v = Vect::of(&coordinates);
        assert!(rt; v.as_slice() == coordinates.as_slice());
    }
    let none = Vect::of(&[]);
    assert!(rt; none.as_slice().is_empty());
    let some = Vect::of(&[7, 0]);
    let copy = some;
    assert!(rt; copy == some);
    assert!(rt; some != none);
    assert!(rt; some != Vect::of(&[7]));
}

#[test]
fn grids_know_their_cells_and_keys(rt: HostRuntime) {
    let plane = Grid { n: 2, b: 9 };
    assert!(rt; plane.is_in_range());
    assert!(rt; plane.has_cell(&Vect::of(&[511, 0])));
    assert!(rt; !plane.has_cell(&Vect::of(&[512, 0])));
    assert!(rt; !plane.has_cell(&Vect::of(&[511])));
    assert!(rt; plane.has_key(262143));
    assert!(rt; !plane.has_key(262144));
    for (n, b) in [(1, 32), (2, 32), (8, 8), (8, 1), (5, 12)] {
        assert!(rt; Grid { n, b }.is_in_range());
    }
    for (n, b) in [(0, 1), (9, 1), (1, 0), (1, 33), (5, 13), (255, 255)] {
        assert!(rt; !Grid { n, b }.is_in_range());
        assert!(rt; !Grid { n, b }.has_key(0));
    }
}
