//! How far entries reach, and which of them a window holds.
use bptree_node::Entry;
use curve_laws::{Curve, Vect};
use join_window::{Reaching, Window, reach};
use spb_edge::Memory;
use std::alloc::Global;
use z_curve::ZCurve;

// The key that a vector reaches, if it is a cell.
fn reached(curve: ZCurve, v: &[u32], r: u32) -> Option<u64> {
    if v.len() > 8 {
        return None;
    }
    let cell = Vect::of(v);
    if !curve.has_cell(&cell) {
        return None;
    }
    Some(reach(&curve, &cell, r))
}

// An entry that reaches this key.
fn entry(id: u32, upper: u64) -> Reaching {
    let entry = Entry {
        key: 0,
        id,
        slot: 0,
    };
    Reaching {
        upper,
        entry,
        cell: Vect::of(&[0]),
    }
}

// The ids of the entries that a window of three holds at a key.
fn held(alloc: Global, key: u64) -> Result<Vec<u32>, Memory> {
    let mut window = Window::new(alloc);
    window.add(entry(5, 20))?;
    window.add(entry(2, 10))?;
    window.add(entry(9, 15))?;
    window.keep_reaching(key);
    let mut ids = Vec::new(alloc);
    for reaching in window.entries() {
        ids.push(reaching.entry.id)?;
    }
    Ok(ids)
}

#[test]
fn a_cell_reaches_its_upper_corner(rt: HostRuntime) {
    let curve = ZCurve { n: 2, b: 9 };
    assert_eq!(rt; reached(curve, &[8, 243], 2), Some(21913));
    assert_eq!(rt; reached(curve, &[10, 245], 0), Some(21913));
    assert_eq!(rt; reached(curve, &[512, 0], 0), None);
}

#[test]
fn no_cell_reaches_beyond_the_curve(rt: HostRuntime) {
    assert_eq!(rt;
        reached(ZCurve { n: 2, b: 9 }, &[8, 243], u32::MAX),
        Some(262143)
    );
    assert_eq!(rt;
        reached(ZCurve { n: 2, b: 32 }, &[1, 2], u32::MAX),
        Some(u64::MAX)
    );
    assert_eq!(rt; reached(ZCurve { n: 1, b: 32 }, &[6], 0), Some(6));
}

#[test]
fn a_window_holds_what_reaches_the_key(rt: HostRuntime) -> Result<(), Memory> {
    assert_eq!(rt; held(rt.alloc(), 10)?.as_slice(), [5, 2, 9].as_slice());
    assert_eq!(rt; held(rt.alloc(), 11)?.as_slice(), [5, 9].as_slice());
    assert_eq!(rt; held(rt.alloc(), 20)?.as_slice(), [5].as_slice());
    assert_eq!(rt; held(rt.alloc(), 21)?.len(), 0);
    Ok(())
}
