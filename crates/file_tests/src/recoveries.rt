//! A recovery that is stopped at each of its calls.
use crate::additions::{ADDITION, CHOICES, Points, calls_of, points_in};
use crate::plays::{CHECK, RUN, disk_of, five_points, is_so, play, sink};
use spb_edge::{Bytes, Choice, MemDisk};
use spb_top::Status;
use std::alloc::Global;
use std::test::Fail;

/// What a crash leaves of the addition of a sixth point that stops once its commit is done: its pages aren't in their places yet.
fn committed(alloc: Global) -> Result<Bytes, Fail> {
    let image = five_points(alloc)?;
    let calls = calls_of(alloc, image.as_slice())?;
    let stop = calls.before.saturating_add(4);
    let mut disk = disk_of(alloc, image.as_slice(), &[], Some(stop))?;
    if !is_so(alloc, &RUN, ADDITION, &mut disk, Status::DiskFault, b"")? {
        return Err(Fail::new("the addition isn't stopped"));
    }
    Ok(disk.after_crash(alloc, Choice::DropAll)?)
}

/// Whether each crash of the disk leaves the six points.
fn leaves_six(alloc: Global, disk: &MemDisk) -> Result<bool, Fail> {
    for choice in CHOICES {
        let left = disk.after_crash(alloc, choice)?;
        if points_in(alloc, left.as_slice())? != Points::Six {
            return Ok(false);
        }
    }
    Ok(true)
}

/// Whether a check of the image, stopped after so many of its calls, leaves the six points, and says how many there are only if
/// it comes to its end.
fn is_recovered(alloc: Global, image: &[u8], all: u64, stop: u64) -> Result<bool, Fail> {
    let mut disk = disk_of(alloc, image, &[], Some(stop))?;
    let (status, text) = if stop < all {
        (Status::DiskFault, "")
    } else {
        (Status::Done, "sound 6\n")
    };
    let is_ended = is_so(alloc, &CHECK, b"", &mut disk, status, text.as_bytes())?;
    Ok(is_ended && leaves_six(alloc, &disk)?)
}

#[test]
fn a_recovery_stopped_at_each_call(rt: HostRuntime) -> Result<(), Fail> {
    let image = committed(rt.alloc())?;
    assert!(rt; image.as_slice().get(16) == Some(&1));
    let mut disk = disk_of(rt.alloc(), image.as_slice(), &[], None)?;
    let mut output = sink(rt.alloc())?;
    let status = play(rt.alloc(), &CHECK, b"", &mut output, &mut disk)?;
    assert_eq!(rt; status, Status::Done);
    assert!(rt; disk.image().get(16) == Some(&0));
    let all = disk.calls().len() as u64;
    for stop in 0..=all {
        assert!(rt;
            is_recovered(rt.alloc(), image.as_slice(), all, stop)?,
            "{stop}"
        );
    }
    Ok(())
}
