//! The curve on worked examples, and beside a plain program of its definition.
ghost use Rattle.std.specs.Prelude.{◌<◌, ◌≤◌};

use curve_laws::{Curve, Vect, obeys_laws};
use hilbert_curve::{Hilbert, walk_state};

// the cell of a key, and the key of that cell, if the curve has them
fn there_and_back<C: Curve>(curve: &C, key: u64) -> Option<(Vect, u64)> {
    obeys_laws(curve);
    if !curve.has_key(key) {
        return None;
    }
    let cell = curve.cell(key);
    if !curve.has_cell(&cell) {
        return None;
    }
    Some((cell, curve.key(&cell)))
}

// the step from a key, if the curve has it
fn step(curve: Hilbert, key: u64) -> Option<Option<(u8, bool)>> {
    if curve.has_key(key) {
        Some(curve.step_axis(key))
    } else {
        None
    }
}

// the cell of a key by the formulas, group by group
fn plain_cell(n: usize, b: usize, key: u64) -> [u32; 8]
    requires { (0 < n) × (n ≤ 8) × (b ≤ 8) }
{
    let mask = (1u64 << n) - 1;
    let mut entry = 0;
    let mut turn = 0;
    let mut coordinates = [0u32; 8];
    for t in 0..b {
        let group = key >> (n * (b - 1 - t)) & mask;
        let from = if group == 0 { 0 } else { (group - 1) / 2 * 2 };
        let ones = if group > 0 && group % 2 == 0 {
            group - 1
        } else {
            group
        };
        let direction = ones.trailing_ones() as usize % n;
        let places = turn % n + 1;
        let bits = plain_turn(n, group ^ group >> 1, places) ^ entry;
        for (j, x) in coordinates.iter_mut().enumerate() {
            *x = *x << 1 | (bits >> j & 1) as u32;
        }
        entry ^= plain_turn(n, from ^ from >> 1, places);
        turn = (turn % n + direction + 1) % n;
    }
    coordinates
}

fn plain_turn(n: usize, x: u64, places: usize) -> u64
    requires { (0 < n) × (n ≤ 8) }
{
    (x << (places % n) | x >> (n - places % n)) & ((1 << n) - 1)
}

#[test]
fn visits_the_plane(rt: HostRuntime) {
    let cells = [
        [0, 0],
        [1, 0],
        [1, 1],
        [0, 1],
        [0, 2],
        [0, 3],
        [1, 3],
        [1, 2],
        [2, 2],
        [2, 3],
        [3, 3],
        [3, 2],
        [3, 1],
        [2, 1],
        [2, 0],
        [3, 0],
    ];
    let curve = Hilbert { n: 2, b: 2 };
    for (key, cell) in cells.iter().enumerate() {
        assert!(rt; there_and_back(&curve, key as u64) == Some((Vect::of(cell), key as u64)));
    }
    assert!(rt; there_and_back(&curve, 16).is_none());
    assert!(rt; step(curve, 7) == Some(Some((0, true))));
    assert!(rt; step(curve, 12) == Some(Some((0, false))));
    assert!(rt; step(curve, 15) == Some(None));
}

#[test]
fn visits_the_cube(rt: HostRuntime) {
    let cells = [
        [0, 0, 0],
        [0, 1, 0],
        [0, 1, 1],
        [0, 0, 1],
        [1, 0, 1],
        [1, 1, 1],
        [1, 1, 0],
        [1, 0, 0],
    ];
    for (key, cell) in cells.iter().enumerate() {
        assert!(rt;
            there_and_back(&Hilbert { n: 3, b: 1 }, key as u64)
                == Some((Vect::of(cell), key as u64))
        );
    }
}

#[test]
fn a_line_is_its_coordinate(rt: HostRuntime) {
    for (b, most) in [(1, 1), (7, 127), (32, u32::MAX)] {
        let line = Hilbert { n: 1, b };
        for x in [0, 1, most / 3, most] {
            assert!(rt; there_and_back(&line, x as u64) == Some((Vect::of(&[x]), x as u64)));
        }
        assert!(rt; there_and_back(&line, most as u64 + 1).is_none());
        assert!(rt; step(line, 0) == Some(Some((0, true))));
        assert!(rt; step(line, most as u64) == Some(None));
    }
}

#[test]
fn keys_come_back(rt: HostRuntime) {
    let bytes = Hilbert { n: 8, b: 8 };
    let between = u64::MAX / 1001;
    for i in 0..1001u64 {
        let key = i * between;
        assert!(rt; there_and_back(&bytes, key).is_some_and(|(_, back)| back == key));
    }
    assert!(rt; there_and_back(&bytes, u64::MAX).is_some_and(|(_, back)| back == u64::MAX));
    assert!(rt; step(bytes, u64::MAX) == Some(None));
    let wide = Hilbert { n: 2, b: 32 };
    assert!(rt; there_and_back(&wide, u64::MAX).is_some_and(|(_, back)| back == u64::MAX));
    assert!(rt; step(wide, u64::MAX) == Some(None));
    assert!(rt; step(wide, u64::MAX - 1).is_some_and(|found| found.is_some()));
}

#[test]
fn agrees_with_a_plain_program(rt: HostRuntime) {
    for (n, b) in [
        (1u8, 6u8),
        (2, 4),
        (3, 3),
        (4, 2),
        (5, 2),
        (6, 2),
        (7, 1),
        (8, 1),
        (8, 2),
    ] {
        let curve = Hilbert { n, b };
        let end = 1u64 << (n * b);
        let apart = end / 256 + 1;
        for i in 0..256 {
            let key = i * apart;
            if key < end {
                let plain = plain_cell(n as usize, b as usize, key);
                let found = there_and_back(&curve, key);
                assert!(rt;
                    found == Some((Vect::of(&plain[..n as usize]), key)),
                    "key {key} of {n} axes"
                );
            }
        }
    }
}

// from entry 0 and the last axis nothing is turned, and a step shows the row of its group
#[test]
fn steps_by_the_tables(rt: HostRuntime) {
    let plane = [(0, 0, 0), (1, 0, 1), (3, 0, 1), (2, 3, 0)];
    for group in 0..4 {
        assert!(rt; walk_state::<2>(0, 1, group) == plane[group as usize]);
    }
    let cube = [
        (0, 0, 0),
        (1, 0, 1),
        (3, 0, 1),
        (2, 3, 2),
        (6, 3, 2),
        (7, 6, 1),
        (5, 6, 1),
        (4, 5, 0),
    ];
    for group in 0..8 {
        assert!(rt; walk_state::<3>(0, 2, group) == cube[group as usize]);
    }
    assert!(rt; walk_state::<1>(0, 0, 1) == (1, 0, 0));
    assert!(rt; walk_state::<2>(0, 0, 3) == (1, 3, 1));
}
