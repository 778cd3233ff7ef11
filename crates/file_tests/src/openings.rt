//! What an opening reads of the slots, and the texts of what ends it or a session.
use crate::plays::{CHECK, disk_of, five_points, is_so};
use page_laws::Rule;
use session::{Ending, First};
use spb_edge::DiskCall;
use spb_top::Status;
use std::alloc::{AllocError, Global};
use std::test::Fail;
use store_core::OpenError;

/// The pages of the store of five points that hold its hundred slots.
const SLOT_PAGES: [u64; 25] = [
    85, 86, 87, 88, 89, 90, 91, 92, 93, 94, 95, 96, 97, 98, 99, 100, 101, 102, 103, 104, 105, 106,
    107, 108, 109,
];

/// The pages behind those of the journal that the calls read, one after the other.
fn read_pages(alloc: Global, calls: &[DiskCall]) -> Result<Vec<u64>, AllocError> {
    let mut pages = Vec::new(alloc);
    for call in calls {
        match *call {
            DiskCall::Read { at, .. } if at >= 43_520 => pages.push(at / 512)?,
            _ => {}
        }
    }
    Ok(pages)
}

#[test]
fn slot_pages_are_read_once(rt: HostRuntime) -> Result<(), Fail> {
    let image = five_points(rt.alloc())?;
    let mut disk = disk_of(rt.alloc(), image.as_slice(), &[], None)?;
    assert!(rt;
        is_so(
            rt.alloc(),
            &CHECK,
            b"",
            &mut disk,
            Status::Done,
            b"sound 5\n"
        )?
    );
    let pages = read_pages(rt.alloc(), disk.calls())?;
    assert!(rt; pages.as_slice() == SLOT_PAGES.as_slice());
    Ok(())
}

#[test]
fn texts_of_refusals(rt: HostRuntime) -> Result<(), Fail> {
    for (refusal, text) in [
        (OpenError::NotStore, "not a store"),
        (
            OpenError::Damaged {
                page: 4,
                rule: Rule::Journal,
            },
            "damaged page 4 rule journal",
        ),
        (OpenError::DiskFault, "disk fault"),
        (OpenError::Memory, "out of memory"),
    ] {
        assert!(rt; format!(in rt.alloc(); "{refusal}")?.as_str() == text);
    }
    Ok(())
}

#[test]
fn endings_in_words(rt: HostRuntime) -> Result<(), Fail> {
    let rule = Rule::Slot;
    let first = First::Memory;
    for (e, text) in [
        (Ending::DiskFault, "disk fault"),
        (
            Ending::Damaged { page: 85, rule },
            "damaged page 85 rule slot",
        ),
        (Ending::NoMemory, "out of memory"),
        (Ending::Spent { first }, "the session has ended"),
    ] {
        assert!(rt; format!(in rt.alloc(); "{e}")?.as_str() == text);
    }
    Ok(())
}
