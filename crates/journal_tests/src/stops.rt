//! A change that is stopped at each of its calls.
use crate::files::{Home, change, disk_of, file, home_after_recovery, recover};
use spb_edge::Choice;
use std::alloc::Global;
use std::test::Fail;

/// What the file stands for once it is recovered, and the same if the recovery is stopped after each
/// number of its calls and made again; Mixed if these differ.
fn home_whatever_the_stop(alloc: Global, image: &[u8]) -> Result<Home, Fail> {
    let home = home_after_recovery(alloc, image)?;
    for stop in 0..11 {
        let mut disk = disk_of(alloc, image, &[], Some(stop))?;
        let _ = recover(alloc, &mut disk)?;
        for choice in [Choice::KeepAll, Choice::DropAll, Choice::Fill(0x37)] {
            let left = disk.after_crash(alloc, choice)?;
            if home_after_recovery(alloc, left.as_slice())? != home {
                return Ok(Home::Mixed);
            }
        }
    }
    Ok(home)
}

#[test]
fn a_change_stopped_at_each_call_happens_whole_or_not_at_all(rt: HostRuntime) -> Result<(), Fail> {
    let old = file(rt.alloc(), 90)?;
    // The sync after the open gate is the fourth call, and nine calls are made in all.
    for stop in 0..10 {
        let mut disk = disk_of(rt.alloc(), &old, &[], Some(stop))?;
        let done = change(rt.alloc(), &mut disk)?;
        assert!(rt; done == (stop == 9), "{stop}");
        for choice in [
            Choice::KeepAll,
            Choice::DropAll,
            Choice::Fill(0x37),
            Choice::Fill(1),
        ] {
            if choice == Choice::Fill(1) && stop < 2 {
                continue;
            }
            let left = disk.after_crash(rt.alloc(), choice)?;
            let home = home_whatever_the_stop(rt.alloc(), left.as_slice())?;
            assert!(rt; home != Home::Mixed, "{stop}");
            assert!(rt; stop > 2 || home == Home::Old, "{stop}");
            assert!(rt; stop < 4 || home == Home::New, "{stop}");
        }
    }
    Ok(())
}
