//! Headers with a field out of its range.
use crate::files::{disk_of, file, recover};
use redo_journal::{Field, RecoverError};
use std::alloc::Global;
use std::test::Fail;

/// The answer over a file of 90 pages with an open gate, whose header has this count and these numbers
/// of pages, and whether the file was written to.
fn over_header(
    alloc: Global,
    count: u8,
    numbers: &[u8],
) -> Result<(Result<(), RecoverError>, bool), Fail> {
    let old = file(alloc, 90)?;
    let mut image = Vec::new(alloc);
    image.extend_from_slice(old.get(..16).unwrap_or(&[]))?;
    image.push(1)?;
    image.extend_from_slice(old.get(17..2048).unwrap_or(&[]))?;
    image.extend_from_slice(&[0, 0, 0, count, 0, 0, 0, 0])?;
    for n in numbers {
        image.extend_from_slice(&[0, 0, 0, *n])?;
    }
    image.extend_from_slice(old.get(image.len()..).unwrap_or(&[]))?;
    let mut disk = disk_of(alloc, &image, &[], None)?;
    let answer = recover(alloc, &mut disk)?;
    Ok((answer, !disk.written().is_empty()))
}

#[test]
fn the_first_bad_field_is_named(rt: HostRuntime) -> Result<(), Fail> {
    for (count, numbers, field) in [
        (0, [200, 200, 200], Field::Count(0)),
        (81, [1, 2, 3], Field::Count(81)),
        (
            2,
            [1, 4, 3],
            Field::Page {
                place: 1,
                number: 4,
            },
        ),
        (
            2,
            [90, 4, 3],
            Field::Page {
                place: 0,
                number: 90,
            },
        ),
        (
            3,
            [1, 86, 86],
            Field::Page {
                place: 2,
                number: 86,
            },
        ),
    ] {
        let (answer, written) = over_header(rt.alloc(), count, &numbers)?;
        assert!(rt; answer == Err(RecoverError::BadHeader(field)));
        assert!(rt; !written);
    }
    let (answer, written) = over_header(rt.alloc(), 3, &[1, 86, 89])?;
    assert!(rt; answer == Ok(()));
    assert!(rt; written);
    Ok(())
}
