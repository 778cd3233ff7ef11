//! Rows whose keys are known, and a slow program beside the fast one.
use curve_laws::{Curve, Vect, obeys_laws};
use z_curve::ZCurve;

// The key of a vector, if it is a cell and the key's cell is the vector.
fn key_of<C: Curve>(curve: &C, v: &[u32]) -> Option<u64> {
    obeys_laws(curve);
    if v.len() > 8 {
        return None;
    }
    let v = Vect::of(v);
    if !curve.has_cell(&v) {
        return None;
    }
    let key = curve.key(&v);
    if curve.has_key(key) && curve.cell(key) == v {
        Some(key)
    } else {
        None
    }
}

// The key of the cell of a number if it is a key.
fn key_back<C: Curve>(curve: &C, key: u64) -> Option<u64> {
    if !curve.has_key(key) {
        return None;
    }
    key_of(curve, curve.cell(key).as_slice())
}

// The key by halving all coordinates, bit after bit from the lowest on.
fn slow_key(coordinates: &[u32], bits: u8) -> u64 {
    let mut rest = [0; 8];
    for (place, coordinate) in coordinates.iter().take(8).enumerate() {
        rest[place] = *coordinate;
    }
    let mut key: u64 = 0;
    let mut weight: u64 = 1;
    for _ in 0..bits {
        for place in 0..8 {
            let place = 7 - place;
            if place < coordinates.len() {
                if rest[place] % 2 == 1 {
                    key = key.wrapping_add(weight);
                }
                rest[place] /= 2;
                weight = weight.wrapping_mul(2);
            }
        }
    }
    key
}

#[test]
fn known_keys(rt: HostRuntime) {
    let small = ZCurve { n: 2, b: 2 };
    assert_eq!(rt; key_of(&small, &[1, 2]), Some(6));
    let wide = ZCurve { n: 2, b: 9 };
    for (v, key) in [
        ([0, 255], 21845),
        ([7, 256], 65578),
        ([10, 245], 21913),
        ([200, 255], 62933),
        ([255, 0], 43690),
    ] {
        assert_eq!(rt; key_of(&wide, &v), Some(key));
    }
}

#[test]
fn small_grids_in_order(rt: HostRuntime) {
    let plane = ZCurve { n: 2, b: 2 };
    let cells = [
        [0, 0],
        [0, 1],
        [1, 0],
        [1, 1],
        [0, 2],
        [0, 3],
        [1, 2],
        [1, 3],
        [2, 0],
        [2, 1],
        [3, 0],
        [3, 1],
        [2, 2],
        [2, 3],
        [3, 2],
        [3, 3],
    ];
    for (key, cell) in cells.iter().enumerate() {
        assert_eq!(rt; key_of(&plane, cell), Some(key as u64));
    }
    let cube = ZCurve { n: 3, b: 1 };
    let corners = [
        [0, 0, 0],
        [0, 0, 1],
        [0, 1, 0],
        [0, 1, 1],
        [1, 0, 0],
        [1, 0, 1],
        [1, 1, 0],
        [1, 1, 1],
    ];
    for (key, cell) in corners.iter().enumerate() {
        assert_eq!(rt; key_of(&cube, cell), Some(key as u64));
    }
}

#[test]
fn the_ends_of_the_ranges(rt: HostRuntime) {
    let line = ZCurve { n: 1, b: 32 };
    for coordinate in [0, 1, 6, 4294967294, 4294967295] {
        assert_eq!(rt; key_of(&line, &[coordinate]), Some(u64::from(coordinate)));
    }
    let plane = ZCurve { n: 2, b: 32 };
    assert_eq!(rt;
        key_of(&plane, &[4294967295, 4294967295]),
        Some(18446744073709551615)
    );
    assert_eq!(rt;
        key_of(&plane, &[4294967295, 0]),
        Some(12297829382473034410)
    );
    assert_eq!(rt;
        key_back(&plane, 18446744073709551615),
        Some(18446744073709551615)
    );
    let corner = ZCurve { n: 8, b: 1 };
    assert_eq!(rt; key_of(&corner, &[1, 0, 0, 0, 0, 0, 0, 0]), Some(128));
    assert_eq!(rt; key_of(&corner, &[0, 0, 0, 0, 0, 1, 0, 1]), Some(5));
    assert_eq!(rt; key_of(&corner, &[1, 1, 1, 1, 1, 1, 1, 1]), Some(255));
    assert_eq!(rt; key_of(&corner, &[2, 0, 0, 0, 0, 0, 0, 0]), None);
}

#[test]
fn there_and_back(rt: HostRuntime) {
    let curve = ZCurve { n: 8, b: 8 };
    let last: u64 = 18446744073709551615;
    let step = last / 1001;
    for place in 0..1001u64 {
        let key = place.wrapping_mul(step);
        assert_eq!(rt; key_back(&curve, key), Some(key));
    }
    assert_eq!(rt; key_back(&curve, last), Some(last));
}

#[test]
fn as_the_slow_program(rt: HostRuntime) {
    for (n, b) in [
        (1, 8),
        (2, 4),
        (3, 3),
        (4, 2),
        (5, 2),
        (6, 1),
        (7, 1),
        (8, 1),
    ] {
        let curve = ZCurve { n, b };
        let mut keys: u32 = 0;
        for key in 0..1024 {
            if curve.has_key(key) {
                let cell = curve.cell(key);
                assert_eq!(rt; slow_key(cell.as_slice(), b), key);
                keys = keys.wrapping_add(1);
            }
        }
        assert_eq!(rt; keys, 1 << (n * b));
    }
}

#[test]
fn out_of_range(rt: HostRuntime) {
    for (n, b) in [(0, 1), (9, 1), (1, 0), (1, 33), (5, 13), (255, 255)] {
        let curve = ZCurve { n, b };
        assert!(rt; !curve.has_key(0));
        assert_eq!(rt; key_of(&curve, &[]), None);
        assert_eq!(rt; key_of(&curve, &[0]), None);
        assert_eq!(rt; key_of(&curve, &[0, 0, 0, 0, 0]), None);
    }
}

#[test]
fn corners(rt: HostRuntime) {
    let curve = ZCurve { n: 2, b: 9 };
    curve.keeps_order();
    let low = Vect::of(&[0, 0]);
    let high = Vect::of(&[255, 256]);
    if curve.has_cell(&low) && curve.has_cell(&high) {
        assert_eq!(rt; curve.corner_keys(&low, &high), (0, 109226));
    } else {
        assert!(rt; false);
    }
}
