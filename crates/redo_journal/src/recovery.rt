//! Reading what the journal holds, and finishing it.
ghost use Rattle.spb_edge.specs.Calls.{DiskContinues};
ghost use Rattle.std.specs.Prelude.{◌≡◌, ◌⊎◌, ◌+◌, ◌*◌, ◌<◌, ◌≤◌, [], List, ℕ, false, IsTrue, OnOk, IfOk, length};
ghost use Rattle.spb_edge.specs.Fault.{CountsError, next_count};
ghost use Rattle.spb_edge.specs.Crash.{IsDurable, CrashesLeaveOnly};
ghost use Rattle.redo_journal.specs.Calls.{DiskServes};
ghost use Rattle.redo_journal.specs.declared.layout.TheConstants.{PAGE_SIZE, GATE_AT, LEAST_PAGES};
ghost use Rattle.redo_journal.specs.Pages.{page};
ghost use Rattle.redo_journal.specs.Redo.{has_open_gate, RecoversTo};
ghost use Rattle.redo_journal.specs.Change.{ReadsChange, Recovers, OnBadHeader, CountsRecoverFault};

use crate::device::{read_piece, sync_all};
use crate::header::read_header;
use crate::layout::{GATE_AT, HEADER_PAGE, OPEN_GATE, PAGE_SIZE};
use crate::moves::settle_staged;
use crate::staged::Staged;
use crate::{DiskFault, RecoverError};
use spb_edge::Disk;

/// Whether the gate is open. One device call.
fn gate_is_open<D: Disk>(disk: &mut D) -> Result<bool, DiskFault>
    requires { GATE_AT + 1 ≤ D.size_of disk.old }
    ensures gate { IsTrue (D.is_known disk.old) → IfOk result (λ opened. opened ≡ has_open_gate (D.image disk.old)) }
    ensures quiet { D.quiet disk.old disk.new }
    ensures image { IsTrue (D.is_known disk.old) → D.image disk.new ≡ D.image disk.old }
    ensures disk { DiskServes D.is_known D.knows_crashes D.size_of D.faults result disk.old disk.new }
{
    let mut gate = [0];
    read_piece(disk, GATE_AT, &mut gate)?;
    Ok(gate[0] == OPEN_GATE)
}

/// Page n. One device call.
pub(crate) fn read_page<D: Disk>(
    disk: &mut D,
    n: u32,
    into: &mut [u8; PAGE_SIZE],
) -> Result<(), DiskFault>
    requires { PAGE_SIZE * n + PAGE_SIZE ≤ D.size_of disk.old }
    ensures data { IsTrue (D.is_known disk.old) → OnOk result (into.new ≡ page (D.image disk.old) n) }
    ensures quiet { D.quiet disk.old disk.new }
    ensures image { IsTrue (D.is_known disk.old) → D.image disk.new ≡ D.image disk.old }
    ensures disk { DiskServes D.is_known D.knows_crashes D.size_of D.faults result disk.old disk.new }
    ensures reads { IsTrue (D.is_known disk.old) → D.reads disk.new ≡ next_count (D.reads disk.old) }
{
    read_piece(disk, PAGE_SIZE as u64 * n as u64, into)
}

/// Stages the change that the journal holds, and says whether it holds one.
fn find_change<D: Disk>(disk: &mut D, staged: &mut Staged) -> Result<bool, RecoverError>
    requires none { staged.old.pages ≡ [] }
    requires size { PAGE_SIZE * LEAST_PAGES ≤ D.size_of disk.old }
    ensures finds { IsTrue (D.is_known disk.old) → ReadsChange staged.old.total result (D.image disk.old) staged.new.pages }
    ensures none { IfOk result (λ found. found ≡ false → staged.new.pages ≡ []) }
    ensures total { staged.new.total ≡ staged.old.total }
    ensures quiet { D.quiet disk.old disk.new }
    ensures image { IsTrue (D.is_known disk.old) → D.image disk.new ≡ D.image disk.old }
    ensures disk { DiskContinues D.is_known D.knows_crashes D.size_of disk.old disk.new }
    ensures fault { CountsRecoverFault result (D.faults disk.old) (D.faults disk.new) }
{
    if !gate_is_open(disk)? {
        return Ok(false);
    }
    let mut header = [0; PAGE_SIZE];
    read_page(disk, HEADER_PAGE, &mut header)?;
    match read_header(staged.total(), &header) {
        Ok(numbers) => {
            staged.load(disk, numbers)?;
            Ok(true)
        }
        Err(field) => Err(RecoverError::BadHeader(field)),
    }
}

/// Syncs, and stages the change that the journal holds; says whether it holds one.
///
/// Until the sync succeeds the header and the images may be lost in a crash, though they read as they
/// should. So no page may go home before it.
fn find_kept_change<D: Disk>(disk: &mut D, staged: &mut Staged) -> Result<bool, RecoverError>
    requires none { staged.old.pages ≡ [] }
    requires size { PAGE_SIZE * LEAST_PAGES ≤ D.size_of disk.old }
    ensures finds { IsTrue (D.is_known disk.old) → ReadsChange staged.old.total result (D.image disk.old) staged.new.pages }
    ensures none { IfOk result (λ found. found ≡ false → staged.new.pages ≡ []) }
    ensures total { staged.new.total ≡ staged.old.total }
    ensures any_moment { CrashesLeaveOnly D.moment D.crash_states_since disk.old disk.new (D.crash_states disk.old) }
    ensures kept { IsTrue (D.is_known disk.old) → IsTrue (D.knows_crashes disk.old) → OnOk result (IsDurable (D.image disk.new) (D.crash_states disk.new)) }
    ensures image { IsTrue (D.is_known disk.old) → D.image disk.new ≡ D.image disk.old }
    ensures disk { DiskContinues D.is_known D.knows_crashes D.size_of disk.old disk.new }
    ensures fault { CountsRecoverFault result (D.faults disk.old) (D.faults disk.new) }
{
    sync_all(disk)?;
    find_change(disk, staged)
}

/// Finishes the change that the journal holds, if it holds one.
pub(crate) fn recover_staged<D: Disk>(disk: &mut D, staged: &mut Staged) -> Result<(), RecoverError>
    requires none { staged.old.pages ≡ [] }
    requires size { D.size_of disk.old ≡ PAGE_SIZE * staged.old.total }
    requires least { LEAST_PAGES ≤ staged.old.total }
    ensures recovers { IsTrue (D.is_known disk.old) → Recovers staged.old.total result (D.image disk.old) (D.image disk.new) }
    ensures any_start { IsTrue (D.is_known disk.old) → IsTrue (D.knows_crashes disk.old)
        → (marks : List ℕ) (home : ℕ → List ℕ) → RecoversTo staged.old.total (D.image disk.old) marks home
        → CrashesLeaveOnly D.moment D.crash_states_since disk.old disk.new (λ c. D.crash_states disk.old c ⊎ RecoversTo staged.old.total c marks home) }
    ensures unwritten { OnBadHeader result (CrashesLeaveOnly D.moment D.crash_states_since disk.old disk.new (D.crash_states disk.old)) }
    ensures kept { IsTrue (D.is_known disk.old) → IsTrue (D.knows_crashes disk.old) → OnOk result (IsDurable (D.image disk.new) (D.crash_states disk.new)) }
    ensures cleared { OnOk result (staged.new.pages ≡ []) }
    ensures total { staged.new.total ≡ staged.old.total }
    ensures disk { DiskContinues D.is_known D.knows_crashes D.size_of disk.old disk.new }
    ensures fault { CountsRecoverFault result (D.faults disk.old) (D.faults disk.new) }
{
    if find_kept_change(disk, staged)? {
        settle_staged(disk, staged)?;
    }
    Ok(())
}
