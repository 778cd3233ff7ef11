//! Single steps over a disk, whose contracts say what they leave if the machine stops.
//!
//! All but [`grow_piece`] stay within the disk's size, and so take no memory.
ghost use Rattle.spb_edge.specs.Calls.{StaysKnown};
ghost use Rattle.std.specs.Prelude.{◌≡◌, ◌≤◌, ◌+◌, IsTrue, OnOk, length, take, drop};
ghost use Rattle.spb_edge.specs.Fault.{CountsError, next_count};
ghost use Rattle.spb_edge.specs.Disk.{overwritten_at, Overwrites, Extends};
ghost use Rattle.spb_edge.specs.Crash.{IsTornWrite, FollowsBy, Includes, IsDurable, Elapses, CrashesLeaveOnly};
ghost use Rattle.redo_journal.specs.Calls.{DiskServes};
ghost use Rattle.redo_journal.specs.Growth.{CountsGrowFault};

use crate::{DiskFault, GrowError};
use spb_edge::{Disk, DiskError};

/// Overwrites the disk with the bytes from `at` on, within its size. Until a sync succeeds, a crash may leave any bytes
/// in this range. `DiskFault` comes only if the disk counted a fault in this call; then this range alone may read as
/// other bytes. One device call.
pub fn write_piece<D: Disk>(disk: &mut D, at: u64, bytes: &[u8]) -> Result<(), DiskFault>
    requires { at + length bytes.now ≤ D.size_of disk.old }
    ensures image { IsTrue (D.is_known disk.old) → OnOk result (D.image disk.new ≡ overwritten_at (D.image disk.old) at bytes.now) }
    ensures torn { IsTrue (D.is_known disk.old) → IsTornWrite at (length bytes.now) (D.image disk.old) (D.image disk.new) }
    ensures disk { DiskServes D.is_known D.knows_crashes D.size_of D.faults result disk.old disk.new }
    ensures crash { FollowsBy (IsTornWrite at (length bytes.now)) (D.crash_states disk.old) (D.crash_states disk.new) }
    ensures time { Elapses (D.moment disk.old) (D.moment disk.new) (D.crash_states_since disk.old) (D.crash_states_since disk.new) (D.crash_states disk.new) }
    ensures reads { IsTrue (D.is_known disk.old) → D.reads disk.new ≡ D.reads disk.old }
{
    match disk.write_at(at, bytes) {
        Ok(()) => Ok(()),
        Err(DiskError::Failed) => Err(DiskFault),
        Err(DiskError::Memory) => unreachable!(),
    }
}

/// Fills `into` with the bytes from `at` on, which are within the disk's size. `DiskFault` comes only if the disk
/// counted a fault in this call. One device call.
pub fn read_piece<D: Disk>(disk: &mut D, at: u64, into: &mut [u8]) -> Result<(), DiskFault>
    requires { at + length into.old ≤ D.size_of disk.old }
    ensures data { IsTrue (D.is_known disk.old) → OnOk result (into.new ≡ take (length into.old) (drop at (D.image disk.old))) }
    ensures filled { length into.new ≡ length into.old }
    ensures quiet { D.quiet disk.old disk.new }
    ensures image { IsTrue (D.is_known disk.old) → D.image disk.new ≡ D.image disk.old }
    ensures disk { DiskServes D.is_known D.knows_crashes D.size_of D.faults result disk.old disk.new }
    ensures reads { IsTrue (D.is_known disk.old) → D.reads disk.new ≡ next_count (D.reads disk.old) }
{
    match disk.read(at, into) {
        Ok(()) => Ok(()),
        Err(DiskError::Failed) => Err(DiskFault),
        Err(DiskError::Memory) => unreachable!(),
    }
}

/// Syncs what was written: after Ok the image as it reads is the only crash state. `DiskFault` comes only if the disk
/// counted a fault in this call. One device call.
pub fn sync_all<D: Disk>(disk: &mut D) -> Result<(), DiskFault>
    ensures kept { IsTrue (D.is_known disk.old) → IsTrue (D.knows_crashes disk.old) → OnOk result (IsDurable (D.image disk.new) (D.crash_states disk.new)) }
    ensures image { IsTrue (D.is_known disk.old) → D.image disk.new ≡ D.image disk.old }
    ensures disk { DiskServes D.is_known D.knows_crashes D.size_of D.faults result disk.old disk.new }
    ensures crash { Includes (D.crash_states disk.old) (D.crash_states disk.new) }
    ensures time { Elapses (D.moment disk.old) (D.moment disk.new) (D.crash_states_since disk.old) (D.crash_states_since disk.new) (D.crash_states disk.new) }
    ensures reads { IsTrue (D.is_known disk.old) → D.reads disk.new ≡ D.reads disk.old }
{
    match disk.sync() {
        Ok(()) => Ok(()),
        Err(DiskError::Failed) => Err(DiskFault),
        Err(DiskError::Memory) => unreachable!(),
    }
}

/// Overwrites the disk with the bytes from `at` on, within its size, and syncs.
///
/// If nothing was pending, a crash during the call leaves the image as it was but for the bytes of this write. After Ok
/// nothing is pending. `DiskFault` comes only if the disk counted a fault in this call. At most two device calls.
pub fn write_and_keep<D: Disk>(disk: &mut D, at: u64, bytes: &[u8]) -> Result<(), DiskFault>
    requires { at + length bytes.now ≤ D.size_of disk.old }
    ensures image { IsTrue (D.is_known disk.old) → OnOk result (D.image disk.new ≡ overwritten_at (D.image disk.old) at bytes.now) }
    ensures torn { IsTrue (D.is_known disk.old) → IsTornWrite at (length bytes.now) (D.image disk.old) (D.image disk.new) }
    ensures kept { IsTrue (D.is_known disk.old) → IsTrue (D.knows_crashes disk.old) → OnOk result (IsDurable (D.image disk.new) (D.crash_states disk.new)) }
    ensures any_moment { IsDurable (D.image disk.old) (D.crash_states disk.old)
        → CrashesLeaveOnly D.moment D.crash_states_since disk.old disk.new (IsTornWrite at (length bytes.now) (D.image disk.old)) }
    ensures disk { DiskServes D.is_known D.knows_crashes D.size_of D.faults result disk.old disk.new }
    ensures reads { IsTrue (D.is_known disk.old) → D.reads disk.new ≡ D.reads disk.old }
{
    write_piece(disk, at, bytes)?;
    sync_all(disk)
}

/// Writes the bytes to the disk from `at` on, which is at most its end, and so may make it longer.
/// Until a sync succeeds, a crash may leave any bytes in this range and any part of the growth.
///
/// `DiskFault` comes only if the disk counted a fault in this call, `Memory` only if the bytes reach past
/// the disk's end. One device call.
pub fn grow_piece<D: Disk>(disk: &mut D, at: u64, bytes: &[u8]) -> Result<(), GrowError>
    requires { at ≤ D.size_of disk.old }
    ensures image { IsTrue (D.is_known disk.old) → Overwrites result at bytes.now (D.image disk.old) (D.image disk.new) }
    ensures told { StaysKnown D.is_known D.knows_crashes disk.old disk.new }
    ensures size { Extends result (D.size_of disk.old) (at + length bytes.now) (D.size_of disk.new) }
    ensures crash { FollowsBy (IsTornWrite at (length bytes.now)) (D.crash_states disk.old) (D.crash_states disk.new) }
    ensures time { Elapses (D.moment disk.old) (D.moment disk.new) (D.crash_states_since disk.old) (D.crash_states_since disk.new) (D.crash_states disk.new) }
    ensures reads { IsTrue (D.is_known disk.old) → D.reads disk.new ≡ D.reads disk.old }
    ensures fault { CountsGrowFault result (D.size_of disk.old) (at + length bytes.now) (D.faults disk.old) (D.faults disk.new) }
{
    match disk.write_at(at, bytes) {
        Ok(()) => Ok(()),
        Err(DiskError::Failed) => Err(GrowError::DiskFault),
        Err(DiskError::Memory) => Err(GrowError::Memory),
    }
}
