//! The steps in which a file is made, each over what the one before it left.
ghost use Rattle.std.specs.Prelude.{◌≡◌, ℕ, ◌+◌, ◌*◌, ◌<◌, ◌≤◌, ◌==◌, ◌⊎◌, List, IsTrue, IfOk, OnOk, length};
ghost use Rattle.spb_edge.specs.Calls.{StaysKnown};
ghost use Rattle.spb_edge.specs.Crash.{IsTornWrite, IsDurable, CrashesLeaveOnly};
ghost use Rattle.spb_edge.specs.Disk.{overwritten_at};
ghost use Rattle.redo_journal.specs.Calls.{DiskServes};
ghost use Rattle.store_check.specs.Stands.{store_magic};
ghost use Rattle.store_format.specs.Errors.{CountsFormatFault, IsBegun};
ghost use Rattle.store_format.specs.NewFile.{zero_page, HasPages, IsUnsigned};

use crate::FormatError;
use crate::new_file::{NewFile, lay_pages};
use redo_journal::DiskFault;
use redo_journal::device::{grow_piece, sync_all, write_and_keep};
use redo_journal::layout::PAGE_SIZE;
use spb_edge::{Disk, DiskError};
use store_check::MAGIC;

/// How many pages are written by one call.
pub(crate) const PIECE_PAGES: u32 = 81;

/// How many pages a file has at most.
pub(crate) const PAGE_LIMIT: u32 = 33_985;

/// Whether the disk's size is 0. One device call.
pub(crate) fn is_empty<D: Disk>(disk: &mut D) -> Result<bool, DiskFault>
    ensures empty { IfOk result (λ empty. empty ≡ (D.size_of disk.old == 0)) }
    ensures image { IsTrue (D.is_known disk.old) → D.image disk.new ≡ D.image disk.old }
    ensures quiet { D.quiet disk.old disk.new }
    ensures disk { DiskServes D.is_known D.knows_crashes D.size_of D.faults result disk.old disk.new }
{
    match disk.size() {
        Ok(size) => Ok(size == 0),
        Err(DiskError::Failed) => Err(DiskFault),
        Err(DiskError::Memory) => unreachable!(),
    }
}

/// Writes the first page as zeros over an empty disk, and syncs it. Two device calls.
#[tactic(auto, unfolding(crate::specs::NewFile::zero_page))]
pub(crate) fn make_room<D: Disk>(disk: &mut D) -> Result<(), FormatError>
    requires { D.size_of disk.old ≡ 0 }
    ensures image { IsTrue (D.is_known disk.old) → OnOk result (D.image disk.new ≡ overwritten_at (D.image disk.old) 0 zero_page) }
    ensures size { OnOk result (D.size_of disk.new ≡ PAGE_SIZE) }
    ensures kept { IsTrue (D.is_known disk.old) → IsTrue (D.knows_crashes disk.old) → OnOk result (IsDurable (D.image disk.new) (D.crash_states disk.new)) }
    ensures any_moment { IsTrue (D.is_known disk.old) → IsDurable (D.image disk.old) (D.crash_states disk.old)
        → CrashesLeaveOnly D.moment D.crash_states_since disk.old disk.new (λ c. length c ≤ PAGE_SIZE) }
    ensures told { StaysKnown D.is_known D.knows_crashes disk.old disk.new }
    ensures fault { CountsFormatFault result (D.faults disk.old) (D.faults disk.new) }
    ensures begun { IsBegun result }
{
    grow_piece(disk, 0, &[0; PAGE_SIZE])?;
    Ok(sync_all(disk)?)
}

/// Writes the file's pages from page 1 on behind the first one, in rising order. Each device call writes as
/// many pages as `piece` has room for.
pub(crate) fn fill<D: Disk>(
    disk: &mut D,
    file: &NewFile,
    piece: &mut [u8],
) -> Result<(), FormatError>
    requires size { D.size_of disk.old ≡ PAGE_SIZE }
    requires total { (1 ≤ file.now.total) × (file.now.total ≤ PAGE_LIMIT) }
    requires piece { length piece.old ≡ PAGE_SIZE * PIECE_PAGES }
    ensures pages { IsTrue (D.is_known disk.old) → D.image disk.old ≡ zero_page → OnOk result (HasPages file.now.total file.now (D.image disk.new)) }
    ensures size { OnOk result (D.size_of disk.new ≡ PAGE_SIZE * file.now.total) }
    ensures any_moment { ((c : List ℕ) → D.crash_states disk.old c → IsUnsigned c)
        → CrashesLeaveOnly D.moment D.crash_states_since disk.old disk.new IsUnsigned }
    ensures crash { ((c : List ℕ) → D.crash_states disk.old c → IsUnsigned c) → (c : List ℕ) → D.crash_states disk.new c → IsUnsigned c }
    ensures told { StaysKnown D.is_known D.knows_crashes disk.old disk.new }
    ensures fault { CountsFormatFault result (D.faults disk.old) (D.faults disk.new) }
    ensures begun { IsBegun result }
{
    let mut next = 1;
    while next < file.total() {
        let count = PIECE_PAGES.min(file.total() - next);
        lay_pages(file, next, count, piece);
        grow_piece(
            disk,
            PAGE_SIZE as u64 * next as u64,
            &piece[..PAGE_SIZE * count as usize],
        )?;
        next += count;
    }
    Ok(())
}

/// Syncs the pages, and then writes the magic and syncs it. Three device calls.
pub(crate) fn sign<D: Disk>(disk: &mut D) -> Result<(), DiskFault>
    requires { PAGE_SIZE ≤ D.size_of disk.old }
    ensures image { IsTrue (D.is_known disk.old) → OnOk result (D.image disk.new ≡ overwritten_at (D.image disk.old) 0 store_magic) }
    ensures kept { IsTrue (D.is_known disk.old) → IsTrue (D.knows_crashes disk.old) → OnOk result (IsDurable (D.image disk.new) (D.crash_states disk.new)) }
    ensures any_moment { IsTrue (D.is_known disk.old) → IsTrue (D.knows_crashes disk.old) → ((c : List ℕ) → D.crash_states disk.old c → IsUnsigned c)
        → CrashesLeaveOnly D.moment D.crash_states_since disk.old disk.new (λ c. IsUnsigned c ⊎ IsTornWrite 0 8 (D.image disk.old) c) }
    ensures disk { DiskServes D.is_known D.knows_crashes D.size_of D.faults result disk.old disk.new }
{
    sync_all(disk)?;
    write_and_keep(disk, 0, &MAGIC)
}
