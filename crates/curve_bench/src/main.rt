//! Asks a curve for keys and cells many times over, so that a script can time it.
//!
//! A line of standard input is such as `z 2 keys 1000`: the curve, its coordinates, what is asked,
//! and how often each of 512 cells or keys is. The answer is the line and a sum that depends on each
//! key or coordinate.
#![tactic(auto)]

use curve_laws::{Curve, Vect};
use hilbert_curve::Hilbert;
use std::alloc::{AllocError, Global};
use std::io;
use z_curve::ZCurve;

/// How many keys a round goes over.
const KEYS: u32 = 512;

fn main(rt: HostRuntime) -> io::Result<()> {
    for line in rt.lines(rt.alloc()) {
        let line = line?;
        match sum(rt.alloc(), line.as_str())? {
            Some(sum) => println!(rt; "{line} {sum}")?,
            None => println!(rt; "{line} isn't known")?,
        }
    }
    Ok(())
}

/// The sum that a line asks for, if its words are known.
fn sum(alloc: Global, line: &str) -> Result<Option<u64>, AllocError> {
    let words: Vec<&str> = line.split(' ').collect(alloc)?;
    let &[curve, n, asked, rounds] = words.as_slice() else {
        return Ok(None);
    };
    let (Ok(n), Ok(rounds)) = (n.parse::<u8>(), rounds.parse::<u32>()) else {
        return Ok(None);
    };
    if n < 2 || n > 8 {
        return Ok(None);
    }
    let b = 64 / n;
    match (curve, asked) {
        ("z", "keys") => sum_of_keys(alloc, &ZCurve { n, b }, rounds),
        ("z", "cells") => sum_of_cells(alloc, &ZCurve { n, b }, rounds),
        ("hilbert", "keys") => sum_of_keys(alloc, &Hilbert { n, b }, rounds),
        ("hilbert", "cells") => sum_of_cells(alloc, &Hilbert { n, b }, rounds),
        _ => Ok(None),
    }
}

/// Numbers that jump about, the lower ones as well as the higher.
fn numbers(alloc: Global) -> Result<Vec<u64>, AllocError> {
    let mut numbers = Vec::new(alloc);
    let mut last: u64 = 0x9e37_79b9_7f4a_7c15;
    for _ in 0..KEYS {
        last ^= last << 13;
        last ^= last >> 7;
        last ^= last << 17;
        numbers.push(last)?;
    }
    Ok(numbers)
}

/// The sum of the keys of cells, each tested and asked for in each round.
fn sum_of_keys<C: Curve>(alloc: Global, curve: &C, rounds: u32) -> Result<Option<u64>, AllocError> {
    let mut cells = Vec::new(alloc);
    for number in &numbers(alloc)? {
        if curve.has_key(*number) {
            cells.push(curve.cell(*number))?;
        }
    }
    let mut sum: u64 = 0;
    for _ in 0..rounds {
        for cell in &cells {
            if curve.has_cell(cell) {
                sum = sum.wrapping_add(curve.key(cell));
            }
        }
    }
    Ok(Some(sum))
}

/// The sum of the coordinates of the cells of keys, each tested and asked for in each round.
fn sum_of_cells<C: Curve>(
    alloc: Global,
    curve: &C,
    rounds: u32,
) -> Result<Option<u64>, AllocError> {
    let keys = numbers(alloc)?;
    let mut sum: u64 = 0;
    for _ in 0..rounds {
        for key in &keys {
            if curve.has_key(*key) {
                sum = sum.wrapping_add(weighed(&curve.cell(*key)));
            }
        }
    }
    Ok(Some(sum))
}

/// The coordinates added up, each as much heavier as it comes later.
fn weighed(cell: &Vect) -> u64 {
    let mut sum: u64 = 0;
    for coordinate in cell.as_slice() {
        sum = sum.wrapping_mul(3).wrapping_add(u64::from(*coordinate));
    }
    sum
}
