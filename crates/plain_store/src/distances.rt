//! Distances of texts.
use super::lines::{GREATEST, Kind, number};

/// The distance of two objects.
pub(crate) fn distance(kind: Kind, left: &[u8], right: &[u8]) -> u64 {
    match kind {
        Kind::L1 { .. } => sum_of_differences(left, right),
        Kind::LInf { .. } => greatest_difference(left, right),
        Kind::Hamming { .. } => places_that_differ(left, right),
        Kind::Sets { .. } => missing(left, right).saturating_add(missing(right, left)),
    }
}

/// The sum of the differences of two lists of numbers, place by place.
fn sum_of_differences(left: &[u8], right: &[u8]) -> u64 {
    let mut sum = 0u64;
    let mut others = right.split(|b| *b == b',');
    for part in left.split(|b| *b == b',') {
        let other = others.next().unwrap_or(b"");
        sum = sum.saturating_add(value_of(part).abs_diff(value_of(other)));
    }
    sum
}

/// The greatest of the differences of two lists of numbers, place by place.
fn greatest_difference(left: &[u8], right: &[u8]) -> u64 {
    let mut greatest = 0u64;
    let mut others = right.split(|b| *b == b',');
    for part in left.split(|b| *b == b',') {
        let other = others.next().unwrap_or(b"");
        greatest = greatest.max(value_of(part).abs_diff(value_of(other)));
    }
    greatest
}

/// The value of a number in an object's text.
fn value_of(part: &[u8]) -> u64 {
    number(part, 0, GREATEST).unwrap_or(0)
}

/// How many pairs of digits differ.
fn places_that_differ(left: &[u8], right: &[u8]) -> u64 {
    let mut places = 0u64;
    for (byte, other) in left.chunks(2).zip(right.chunks(2)) {
        if byte != other {
            places = places.saturating_add(1);
        }
    }
    places
}

/// How many elements of one set the other lacks. Equal numbers have equal texts.
fn missing(set: &[u8], other: &[u8]) -> u64 {
    let mut many = 0u64;
    for element in set.split(|b| *b == b',') {
        let is_in_both = other.split(|b| *b == b',').any(|part| part == element);
        if !is_in_both && element != b"-".as_slice() {
            many = many.saturating_add(1);
        }
    }
    many
}
