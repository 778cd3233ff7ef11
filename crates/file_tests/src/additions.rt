//! An addition to the store of five points that is stopped or meets a fault at each of its calls.
use crate::plays::{RUN, disk_of, five_points, is_so, play, sink};
use spb_edge::{Choice, DiskCall, MemDisk, MemSink, SureDisk};
use spb_top::Status;
use std::alloc::Global;
use std::test::Fail;

/// The addition of the sixth point.
pub(crate) const ADDITION: &[u8] = b"add 0 6 1,1\n";

/// What a crash leaves of the ranges that were written.
pub(crate) const CHOICES: [Choice; 4] = [
    Choice::KeepAll,
    Choice::DropAll,
    Choice::Fill(0x37),
    Choice::Fill(1),
];

/// Asks for each of the points.
const QUESTIONS: &[u8] =
    b"get 0 6\ncount 0\nget 0 1\nget 0 2\nget 0 3\nget 0 4\nget 0 5\ncount 1\ncount 2\ncount 3\n";

/// What the questions are answered without the sixth point.
const WITHOUT: &[u8] =
    b"absent\ncount 5\nobject 0,0\nobject 3,4\nobject 10,0\nobject 100,100\nobject 255,0\ncount 0\ncount 0\ncount 0\n";

/// What the questions are answered with the sixth point.
const WITH: &[u8] =
    b"object 1,1\ncount 6\nobject 0,0\nobject 3,4\nobject 10,0\nobject 100,100\nobject 255,0\ncount 0\ncount 0\ncount 0\n";

/// What an image stands for.
#[derive(Clone, Copy, Debug, PartialEq, Eq)]
pub(crate) enum Points {
    Five,
    Six,
    Others,
}

/// What the image stands for.
pub(crate) fn points_in(alloc: Global, image: &[u8]) -> Result<Points, Fail> {
    let mut disk = SureDisk::new(alloc, image)?;
    let mut output = sink(alloc)?;
    let status = play(alloc, &RUN, QUESTIONS, &mut output, &mut disk)?;
    if status != Status::Done {
        return Ok(Points::Others);
    }
    if output.taken() == WITHOUT {
        return Ok(Points::Five);
    }
    if output.taken() == WITH {
        return Ok(Points::Six);
    }
    Ok(Points::Others)
}

/// How many calls the addition makes: those before its commit, and all.
#[derive(Clone, Copy)]
pub(crate) struct Calls {
    pub(crate) before: u64,
    pub(crate) all: u64,
}

/// How many calls come before the first write.
fn calls_before_a_write(calls: &[DiskCall]) -> usize {
    let mut count = 0usize;
    for call in calls {
        if let DiskCall::Write { .. } = call {
            return count;
        }
        count = count.saturating_add(1);
    }
    count
}

/// The calls of the addition to the image. Its commit writes the journal and syncs, writes the gate and syncs.
pub(crate) fn calls_of(alloc: Global, image: &[u8]) -> Result<Calls, Fail> {
    let mut disk = disk_of(alloc, image, &[], None)?;
    if !is_so(alloc, &RUN, ADDITION, &mut disk, Status::Done, b"ok\n")? {
        return Err(Fail::new("the point isn't added"));
    }
    let calls = disk.calls();
    let before = calls_before_a_write(calls);
    let Some(
        [
            DiskCall::Write { at: 2_048, .. },
            DiskCall::Sync,
            DiskCall::Write { at: 16, len: 1 },
            DiskCall::Sync,
            ..
        ],
    ) = calls.get(before..)
    else {
        return Err(Fail::new("the commit makes other calls"));
    };
    Ok(Calls {
        before: before as u64,
        all: calls.len() as u64,
    })
}

/// Whether each crash of the disk leaves the five points if at most the commit's first two calls were made, and six if all four
/// of them are done or the addition was acknowledged.
fn is_one_or_the_other(
    alloc: Global,
    disk: &MemDisk,
    calls: Calls,
    made: u64,
    done: u64,
    is_acknowledged: bool,
) -> Result<bool, Fail> {
    let may_be_six = made > calls.before.saturating_add(2);
    let may_be_five = done < calls.before.saturating_add(4) && !is_acknowledged;
    for choice in CHOICES {
        let left = disk.after_crash(alloc, choice)?;
        let is_allowed = match points_in(alloc, left.as_slice())? {
            Points::Five => may_be_five,
            Points::Six => may_be_six,
            Points::Others => false,
        };
        if !is_allowed {
            return Ok(false);
        }
    }
    Ok(true)
}

/// Whether the addition, stopped after so many calls, happens whole or not at all.
fn is_stopped(alloc: Global, image: &[u8], calls: Calls, stop: u64) -> Result<bool, Fail> {
    let mut disk = disk_of(alloc, image, &[], Some(stop))?;
    let mut output = sink(alloc)?;
    let status = play(alloc, &RUN, ADDITION, &mut output, &mut disk)?;
    let is_acknowledged = output.taken() == b"ok\n".as_slice();
    let is_ended = if stop < calls.all {
        status == Status::DiskFault && output.taken().is_empty()
    } else {
        status == Status::Done && is_acknowledged
    };
    Ok(is_ended && is_one_or_the_other(alloc, &disk, calls, stop, stop, is_acknowledged)?)
}

#[test]
fn an_addition_stopped_at_each_call(rt: HostRuntime) -> Result<(), Fail> {
    let image = five_points(rt.alloc())?;
    let calls = calls_of(rt.alloc(), image.as_slice())?;
    for stop in 0..=calls.all {
        assert!(rt;
            is_stopped(rt.alloc(), image.as_slice(), calls, stop)?,
            "{stop}"
        );
    }
    Ok(())
}

/// Whether the addition, whose call of this number fails, ends by the fault without a word, and happens whole or not at all.
fn is_faulted(alloc: Global, image: &[u8], calls: Calls, failing: u64) -> Result<bool, Fail> {
    let mut disk = disk_of(alloc, image, &[failing], None)?;
    let done = failing.saturating_sub(1);
    let is_ended = is_so(alloc, &RUN, ADDITION, &mut disk, Status::DiskFault, b"")?;
    Ok(is_ended && is_one_or_the_other(alloc, &disk, calls, failing, done, false)?)
}

#[test]
fn an_addition_with_a_fault_at_each_call(rt: HostRuntime) -> Result<(), Fail> {
    let image = five_points(rt.alloc())?;
    let calls = calls_of(rt.alloc(), image.as_slice())?;
    for before in 0..calls.all {
        let failing = before.saturating_add(1);
        assert!(rt;
            is_faulted(rt.alloc(), image.as_slice(), calls, failing)?,
            "{failing}"
        );
    }
    Ok(())
}

#[test]
fn an_addition_whose_reply_is_not_written(rt: HostRuntime) -> Result<(), Fail> {
    let image = five_points(rt.alloc())?;
    let mut disk = disk_of(rt.alloc(), image.as_slice(), &[], None)?;
    let mut output = MemSink::new(rt.alloc(), 64, &[1])?;
    let status = play(rt.alloc(), &RUN, ADDITION, &mut output, &mut disk)?;
    assert_eq!(rt; status, Status::WriteFault);
    assert!(rt; output.taken().is_empty());
    assert_eq!(rt; points_in(rt.alloc(), disk.image())?, Points::Six);
    Ok(())
}
