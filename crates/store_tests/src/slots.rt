//! Slots on pages in memory.
use object_file::{ObjectFile, SlotContent, SlotHead, read_slot};
use page_laws::{PlainPages, Rule, TreeError};
use spb_edge::Bytes;
use std::test::Fail;

/// A page whose second slot begins with these bytes.
fn page_with(bytes: &[u8; 16]) -> [u8; 512] {
    let mut page = [0; 512];
    page[128..144].copy_from_slice(bytes);
    page
}

#[test]
fn the_bytes_of_slots(rt: HostRuntime) -> Result<(), Fail> {
    let head = SlotHead {
        collection: 3,
        id: 258,
    };
    let held = page_with(&[3, 2, 0, 0, 0, 0, 1, 2, 7, 9, 0, 0, 0, 0, 0, 0]);
    assert!(rt; read_slot(&held, 1) == SlotContent::Filled(head, &[7, 9]));
    let free = page_with(&[255, 2, 3, 4, 5, 6, 7, 8, 9, 0, 0, 0, 0, 0, 0, 1]);
    assert!(rt; read_slot(&free, 1) == SlotContent::Free);
    Ok(())
}

#[test]
fn bytes_that_are_no_slot(rt: HostRuntime) -> Result<(), Fail> {
    for bytes in [
        [4, 2, 0, 0, 0, 0, 1, 2, 7, 9, 0, 0, 0, 0, 0, 0],
        [3, 121, 0, 0, 0, 0, 1, 2, 7, 9, 0, 0, 0, 0, 0, 0],
        [3, 2, 0, 1, 0, 0, 1, 2, 7, 9, 0, 0, 0, 0, 0, 0],
        [3, 2, 0, 0, 0, 0, 1, 2, 7, 9, 1, 0, 0, 0, 0, 0],
    ] {
        assert!(rt; read_slot(&page_with(&bytes), 1) == SlotContent::Broken);
    }
    Ok(())
}

#[test]
fn an_object_is_put_and_given(rt: HostRuntime) -> Result<(), Fail> {
    let mut pages = PlainPages::new(rt.alloc(), 86, 86)?;
    let mut objects = ObjectFile::new(rt.alloc(), 3, &[0, 2])?;
    let head = SlotHead {
        collection: 1,
        id: 70_000,
    };
    let slot = objects.slot_put(&mut pages, head, &[5; 120])?;
    let mut object = Bytes::of(rt.alloc(), &[1])?;
    assert!(rt; objects.slot_get(&mut pages, slot, &mut object)? == head);
    assert!(rt; object.as_slice() == [5; 120].as_slice());
    Ok(())
}

#[test]
fn a_slot_is_cleared(rt: HostRuntime) -> Result<(), Fail> {
    let mut pages = PlainPages::new(rt.alloc(), 86, 86)?;
    let mut objects = ObjectFile::new(rt.alloc(), 3, &[0])?;
    objects.slot_clear(&mut pages, 2)?;
    let mut object = Bytes::of(rt.alloc(), &[])?;
    let damaged = TreeError::Damaged {
        page: 85,
        rule: Rule::Slot,
    };
    assert!(rt; objects.slot_get(&mut pages, 2, &mut object) == Err(damaged));
    assert!(rt; !objects.is_filled(2));
    assert_eq!(rt; objects.free_slots(), 2);
    Ok(())
}
