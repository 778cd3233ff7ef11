//! The calls of the journal, one by one.
use crate::files::{Home, change, disk_of, file, home_of, recover};
use spb_edge::{DiskCall, MemDisk};
use std::alloc::Global;
use std::test::Fail;

#[test]
fn the_calls_come_in_this_order(rt: HostRuntime) -> Result<(), Fail> {
    let old = file(rt.alloc(), 90)?;
    let mut disk = disk_of(rt.alloc(), &old, &[], None)?;
    assert!(rt; change(rt.alloc(), &mut disk)?);
    let body = DiskCall::Write {
        at: 2048,
        len: 1536,
    };
    let gate = DiskCall::Write { at: 16, len: 1 };
    let low = DiskCall::Write { at: 1536, len: 512 };
    let high = DiskCall::Write {
        at: 43520,
        len: 512,
    };
    let sync = DiskCall::Sync;
    assert!(rt; disk.calls() == [body, sync, gate, sync, low, high, sync, gate, sync].as_slice());
    // The header: two images, four zero bytes, and the numbers in rising order.
    let header = [0, 0, 0, 2, 0, 0, 0, 0, 0, 0, 0, 3, 0, 0, 0, 85, 0];
    assert!(rt; disk.written().starts_with(&header));
    assert!(rt; home_of(disk.image()) == Home::New);
    Ok(())
}

/// A disk with a file of 90 pages once it is recovered: with a change that stopped after so many calls.
fn recovered(alloc: Global, stop: u64) -> Result<MemDisk, Fail> {
    let old = file(alloc, 90)?;
    let mut stopped = disk_of(alloc, &old, &[], Some(stop))?;
    change(alloc, &mut stopped)?;
    let mut disk = disk_of(alloc, stopped.image(), &[], None)?;
    recover(alloc, &mut disk)??;
    Ok(disk)
}

#[test]
fn a_recovery_syncs_and_looks_at_the_gate(rt: HostRuntime) -> Result<(), Fail> {
    let disk = recovered(rt.alloc(), 0)?;
    assert!(rt; disk.calls() == [DiskCall::Sync, DiskCall::Read { at: 16, len: 1 }].as_slice());
    Ok(())
}

#[test]
fn a_recovery_makes_its_calls_in_this_order(rt: HostRuntime) -> Result<(), Fail> {
    // The gate is open, and no page is at home.
    let disk = recovered(rt.alloc(), 4)?;
    let sync = DiskCall::Sync;
    let gate = DiskCall::Read { at: 16, len: 1 };
    let header = DiskCall::Read { at: 2048, len: 512 };
    let images = DiskCall::Read {
        at: 2560,
        len: 1024,
    };
    let low = DiskCall::Write { at: 1536, len: 512 };
    let high = DiskCall::Write {
        at: 43520,
        len: 512,
    };
    let close = DiskCall::Write { at: 16, len: 1 };
    assert!(rt;
        disk.calls() == [sync, gate, header, images, low, high, sync, close, sync].as_slice()
    );
    assert!(rt; disk.image().get(16) == Some(&0));
    assert!(rt; home_of(disk.image()) == Home::New);
    Ok(())
}
