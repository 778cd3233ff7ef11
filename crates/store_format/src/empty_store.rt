//! The file of an empty store, made on an empty disk.
ghost use Rattle.std.specs.Prelude.{◌≡◌, ◌⊎◌, ◌*◌, ◌<◌, ◌≤◌, All, IsTrue, false, IfOk, OnOk, length};
ghost use Rattle.metrics_builtin.specs.Space.{IsValid};
ghost use Rattle.spb_defs.specs.State.{empty_in_file};
ghost use Rattle.spb_edge.specs.Calls.{StaysKnown};
ghost use Rattle.spb_edge.specs.Crash.{IsDurable, CrashesLeaveOnly};
ghost use Rattle.redo_journal.specs.Redo.{has_open_gate};
ghost use Rattle.store_check.specs.Layout.{file_pages};
ghost use Rattle.store_check.specs.Profile.{IsInRange};
ghost use Rattle.store_check.specs.Stands.{are_empty, store_magic, Stands, IsNoStore};
ghost use Rattle.redo_journal.specs.Pages.{magic};
ghost use Rattle.store_format.specs.Errors.{CountsFormatFault, TestsSize, IsBegun};
ghost use Rattle.store_format.specs.NewFile.{IsFilled, IsUnderWay};

use crate::FormatError;
use crate::new_file::NewFile;
use crate::steps::{PAGE_LIMIT, PIECE_PAGES, fill, is_empty, make_room, sign};
use redo_journal::layout::PAGE_SIZE;
use spb_edge::{Bytes, Disk, Memory};
use std::alloc::Global;
use store_check::{Profile, empty_is_kept};

/// Makes the file of an empty store, with this profile and these pivots, on a disk whose size is 0.
///
/// The profile is in its ranges, and its roots are empty. The pivots are objects of its space, as many as it
/// says. `NotEmpty` comes exactly if the size isn't 0, unless the disk fails when it is asked for it; then the
/// disk is as before. `DiskFault` comes only if the disk counted a fault in this call, and `Memory` if there is
/// none for the pages that one device call writes (41,472 bytes) or for the disk's growth.
///
/// A crash at any moment leaves what is no store, or the empty store. After an error the disk is to be made
/// empty before a store is made on it again. Each page is written once: a device call for each 81 pages, five
/// others, and the size.
pub fn format<D: Disk>(
    alloc: Global,
    disk: &mut D,
    profile: &Profile,
    pivots: &[Bytes],
) -> Result<(), FormatError>
    requires range { IsInRange profile.now }
    requires roots { IsTrue (are_empty profile.now.roots) }
    requires count { length pivots.now ≡ profile.now.pivots }
    requires objects { All (IsValid profile.now.space) pivots.now }
    ensures formatted { IsTrue (D.is_known disk.old)
        → OnOk result (Stands (D.image disk.new) (empty_in_file profile.now.space profile.now.curve pivots.now profile.now.cap)) }
    ensures closed { IsTrue (D.is_known disk.old) → OnOk result (has_open_gate (D.image disk.new) ≡ false) }
    ensures kept { IsTrue (D.is_known disk.old) → IsTrue (D.knows_crashes disk.old) → OnOk result (IsDurable (D.image disk.new) (D.crash_states disk.new)) }
    ensures any_moment { IsTrue (D.is_known disk.old) → IsTrue (D.knows_crashes disk.old) → IsDurable (D.image disk.old) (D.crash_states disk.old)
        → D.size_of disk.old ≡ 0
        → CrashesLeaveOnly D.moment D.crash_states_since disk.old disk.new
        (λ c. IsNoStore c ⊎ Stands c (empty_in_file profile.now.space profile.now.curve pivots.now profile.now.cap)) }
    ensures size { OnOk result (D.size_of disk.new ≡ PAGE_SIZE * file_pages profile.now.cap) }
    ensures empty { TestsSize result (D.size_of disk.old) }
    ensures quiet { 0 < D.size_of disk.old → D.quiet disk.old disk.new }
    ensures told { StaysKnown D.is_known D.knows_crashes disk.old disk.new }
    ensures fault { CountsFormatFault result (D.faults disk.old) (D.faults disk.new) }
{
    if !is_empty(disk)? {
        return Err(FormatError::NotEmpty);
    }
    // The law on pages without members, for `formatted` and `any_moment`.
    empty_is_kept();
    make(alloc, disk, &NewFile::new(profile, pivots))
}

/// Makes a file on a disk whose size is 0.
fn make<D: Disk>(alloc: Global, disk: &mut D, file: &NewFile) -> Result<(), FormatError>
    requires size { D.size_of disk.old ≡ 0 }
    requires total { (1 ≤ file.now.total) × (file.now.total ≤ PAGE_LIMIT) }
    ensures fills { IsTrue (D.is_known disk.old) → OnOk result (IsFilled file.now (D.image disk.new) × (magic (D.image disk.new) ≡ store_magic)) }
    ensures kept { IsTrue (D.is_known disk.old) → IsTrue (D.knows_crashes disk.old) → OnOk result (IsDurable (D.image disk.new) (D.crash_states disk.new)) }
    ensures any_moment { IsTrue (D.is_known disk.old) → IsTrue (D.knows_crashes disk.old) → IsDurable (D.image disk.old) (D.crash_states disk.old)
        → CrashesLeaveOnly D.moment D.crash_states_since disk.old disk.new (IsUnderWay file.now) }
    ensures size { OnOk result (D.size_of disk.new ≡ PAGE_SIZE * file.now.total) }
    ensures told { StaysKnown D.is_known D.knows_crashes disk.old disk.new }
    ensures fault { CountsFormatFault result (D.faults disk.old) (D.faults disk.new) }
    ensures begun { IsBegun result }
{
    let mut piece = piece_of_zeros(alloc)?;
    make_room(disk)?;
    fill(disk, file, piece.as_mut_slice())?;
    sign(disk)?;
    Ok(())
}

/// The bytes of one device call.
fn piece_of_zeros(alloc: Global) -> Result<Vec<u8>, Memory>
    ensures { IfOk result (λ bytes. length bytes.items ≡ PAGE_SIZE * PIECE_PAGES) }
{
    Ok(vec![in alloc; 0; PAGE_SIZE * PIECE_PAGES as usize]?)
}
