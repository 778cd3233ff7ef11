//! A change with calls that fail, and files that are opened again after a fault.
use crate::files::{Home, change, disk_of, file, home_after_recovery, recover};
use spb_edge::Choice;
use std::alloc::Global;
use std::test::Fail;

#[test]
fn a_call_that_fails_is_a_fault(rt: HostRuntime) -> Result<(), Fail> {
    let old = file(rt.alloc(), 90)?;
    for failing in 1..10 {
        let mut disk = disk_of(rt.alloc(), &old, &[failing], None)?;
        assert!(rt; !change(rt.alloc(), &mut disk)?, "{failing}");
        assert!(rt; disk.calls().len() as u64 == failing, "{failing}");
        for choice in [Choice::KeepAll, Choice::DropAll, Choice::Fill(0x37)] {
            let left = disk.after_crash(rt.alloc(), choice)?;
            let home = home_after_recovery(rt.alloc(), left.as_slice())?;
            assert!(rt; home != Home::Mixed, "{failing}");
            assert!(rt; failing > 3 || home == Home::Old, "{failing}");
            assert!(rt; failing < 5 || home == Home::New, "{failing}");
        }
    }
    Ok(())
}

/// What a crash leaves of a change with a fault at the first of these calls, whose file is then opened
/// again on the same disk and recovered, with faults at the others. Mixed if the recovery answers Ok, and
/// the file stood for something else before it.
fn home_on_the_same_disk(
    alloc: Global,
    old: &[u8],
    failing: &[u64],
    choice: Choice,
) -> Result<Home, Fail> {
    let mut disk = disk_of(alloc, old, failing, None)?;
    if change(alloc, &mut disk)? {
        return Err(Fail::new("no fault came"));
    }
    let before = home_after_recovery(alloc, disk.image())?;
    let recovered = recover(alloc, &mut disk)?.is_ok();
    let left = disk.after_crash(alloc, choice)?;
    let after = home_after_recovery(alloc, left.as_slice())?;
    if recovered && after != before {
        return Ok(Home::Mixed);
    }
    Ok(after)
}

#[test]
fn a_file_is_opened_again_on_the_disk_that_failed(rt: HostRuntime) -> Result<(), Fail> {
    let old = file(rt.alloc(), 90)?;
    // The last sync of the commit: nothing was kept of the open gate, and yet it is found open.
    for choice in [Choice::KeepAll, Choice::DropAll, Choice::Fill(0x37)] {
        assert!(rt; home_on_the_same_disk(rt.alloc(), &old, &[4], choice)? == Home::New);
    }
    Ok(())
}

/// Whether after a failed last sync of the commit, and a fault at a later call, each crash leaves the old
/// pages or the new ones.
fn is_whole_after_faults(
    alloc: Global,
    old: &[u8],
    second: u64,
    choice: Choice,
) -> Result<bool, Fail> {
    Ok(home_on_the_same_disk(alloc, old, &[4, second], choice)? != Home::Mixed)
}

#[test]
fn a_recovery_fails_on_the_disk_that_failed(rt: HostRuntime) -> Result<(), Fail> {
    let old = file(rt.alloc(), 90)?;
    for second in 5..15 {
        assert!(rt; is_whole_after_faults(rt.alloc(), &old, second, Choice::KeepAll)?);
        assert!(rt; is_whole_after_faults(rt.alloc(), &old, second, Choice::DropAll)?);
        assert!(rt; is_whole_after_faults(rt.alloc(), &old, second, Choice::Fill(0x37))?);
    }
    Ok(())
}
