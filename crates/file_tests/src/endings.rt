//! A session that goes on after a fault of the disk.
ghost use Rattle.std.specs.Prelude.{◌≡◌, IfOk};
ghost use Rattle.metrics_builtin.specs.declared.Space.{Space};
ghost use Rattle.spb_edge.specs.declared.reader.Line.{Line};

use crate::additions::calls_of;
use crate::plays::{disk_of, five_points};
use metric_laws::Counted;
use metrics_builtin::{L1, Space};
use session::{Ending, FileSession, First};
use spb_edge::{Bytes, DiskCall, Line, MemDisk, Memory};
use std::alloc::Global;
use std::test::Fail;
use store_core::Opening;

/// The metric of the store of five points.
const POINTS: L1 = L1 { dim: 2, most: 255 };

/// A session over the store of points on the disk.
fn session_over<'a>(
    alloc: Global,
    disk: &'a mut MemDisk,
) -> Result<FileSession<'a, MemDisk, L1>, Fail>
    ensures { IfOk result (λ session. session.store.profile.space ≡ Space.L1 2 255) }
{
    let opening = Opening::start(alloc, disk)?;
    let Space::L1 { dim: 2, most: 255 } = opening.profile().space else {
        return Err(Fail::new("the store has other objects"));
    };
    Ok(FileSession::new(opening.finish(alloc, POINTS)?))
}

/// The line that adds the sixth point.
fn addition(alloc: Global) -> Result<Line, Memory>
    ensures { IfOk result (λ line. line ≡ Line.End → ⊥) }
{
    let text = Bytes::of(alloc, b"add 0 6 1,1")?;
    Ok(Line::Text(text))
}

/// How the addition of the sixth point ends the session, if it does.
fn ending_of(
    alloc: Global,
    session: &mut FileSession<'_, MemDisk, L1>,
) -> Result<Option<Ending>, Fail>
    requires { session.old.store.profile.space ≡ Space.L1 2 255 }
    ensures { session.new.store.profile.space ≡ Space.L1 2 255 }
{
    let line = addition(alloc)?;
    let answer = session.turn(alloc, &mut Counted::new(POINTS), &line);
    Ok(answer.err())
}

#[test]
fn an_ended_session_makes_no_call(rt: HostRuntime) -> Result<(), Fail> {
    let image = five_points(rt.alloc())?;
    let calls = calls_of(rt.alloc(), image.as_slice())?;
    let failing = calls.before.saturating_add(2);
    let mut disk = disk_of(rt.alloc(), image.as_slice(), &[failing], None)?;
    let mut session = session_over(rt.alloc(), &mut disk)?;
    let first = ending_of(rt.alloc(), &mut session)?;
    assert_eq!(rt; first, Some(Ending::DiskFault));
    let further = ending_of(rt.alloc(), &mut session)?;
    assert_eq!(rt;
        further,
        Some(Ending::Spent {
            first: First::DiskFault
        })
    );
    let made = session.into_inner().calls();
    assert_eq!(rt; made.len() as u64, failing);
    assert_eq!(rt; made.last(), Some(&DiskCall::Sync));
    Ok(())
}
