//! Bytes that make a disk longer.
use redo_journal::GrowError;
use redo_journal::device::grow_piece;
use spb_edge::{Choice, MemDisk};
use std::test::Fail;

#[test]
fn a_piece_past_the_end_makes_the_disk_longer(rt: HostRuntime) -> Result<(), Fail> {
    let mut disk = MemDisk::new(rt.alloc(), &[1, 2, 3], &[2], None, 16, 64)?;
    grow_piece(&mut disk, 2, &[7, 8, 9])?;
    assert!(rt; disk.image() == [1, 2, 7, 8, 9].as_slice());
    assert!(rt; grow_piece(&mut disk, 5, &[4]) == Err(GrowError::DiskFault));
    assert!(rt; disk.image() == [1, 2, 7, 8, 9].as_slice());
    let left = disk.after_crash(rt.alloc(), Choice::DropAll)?;
    assert!(rt; left.as_slice() == [1, 2, 3].as_slice());
    Ok(())
}
