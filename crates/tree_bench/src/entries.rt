//! The entries of the trees that are timed.

use bptree_node::Entry;
use curve_laws::{Curve, Vect};
use spb_edge::Memory;
use std::alloc::Global;
use std::array;
use z_curve::ZCurve;

/// How many clusters the vectors lie in.
const CLUSTERS: u64 = 200;

/// How many values a coordinate has in a cluster.
const SPREAD: u64 = 64;

/// So many entries, in the order of their ids. Their keys are those of vectors in clusters, which jump
/// about.
pub(crate) fn entries(alloc: Global, curve: &ZCurve, count: u32) -> Result<Vec<Entry>, Memory> {
    let mut entries = Vec::new(alloc);
    for id in 0..count {
        let cell = vector(id);
        if curve.has_cell(&cell) {
            entries.push(Entry {
                key: curve.key(&cell),
                id,
                slot: id,
            })?;
        }
    }
    Ok(entries)
}

/// The vector of an id: five coordinates of 12 bits.
fn vector(id: u32) -> Vect {
    let cluster = scrambled(u64::from(id)) % CLUSTERS;
    let coordinates: [u32; 5] = array::from_fn(|axis| coordinate(cluster, id, axis as u64));
    Vect::of(&coordinates)
}

/// A coordinate of a vector in a cluster.
fn coordinate(cluster: u64, id: u32, axis: u64) -> u32 {
    let least = drawn(1, cluster, axis) % (4096 - SPREAD);
    (least + drawn(2, u64::from(id), axis) % SPREAD) as u32
}

/// A number that a kind, a number and an axis draw.
fn drawn(kind: u64, number: u64, axis: u64) -> u64 {
    scrambled((kind << 48) ^ (number << 8) ^ axis)
}

/// The bits of a number mixed.
fn scrambled(number: u64) -> u64 {
    let mixed = number.wrapping_add(0x9e37_79b9_7f4a_7c15);
    let mixed = (mixed ^ (mixed >> 30)).wrapping_mul(0xbf58_476d_1ce4_e5b9);
    let mixed = (mixed ^ (mixed >> 27)).wrapping_mul(0x94d0_49bb_1331_11eb);
    mixed ^ (mixed >> 31)
}
