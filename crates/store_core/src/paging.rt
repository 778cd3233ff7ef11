//! How many pages a file has, if it may be a store's.
ghost use Rattle.std.specs.Prelude.{◌≡◌, ◌↔◌, ℕ, ◌*◌, ◌≤◌, IsTrue, IfOk, MatchOption};
ghost use Rattle.redo_journal.specs.declared.layout.TheConstants.{PAGE_SIZE, MAGIC_SIZE, LEAST_PAGES};
ghost use Rattle.redo_journal.specs.Pages.{magic};
ghost use Rattle.redo_journal.specs.Calls.{DiskServes};
ghost use Rattle.spb_edge.specs.Calls.{DiskContinues};
ghost use Rattle.store_check.specs.Stands.{store_magic};
ghost use Rattle.store_core.specs.Paging.{Counts, FindsMarked, ArePages};
ghost use Rattle.store_core.specs.Errors.{CountsOpenFault};

use crate::OpenError;
use page_laws::Rule;
use redo_journal::DiskFault;
use redo_journal::device::read_piece;
use redo_journal::layout::{LEAST_PAGES, MAGIC_SIZE, PAGE_SIZE};
use spb_edge::{Disk, DiskError};
use store_check::{LEAST_SIZE, MAGIC};

/// How many pages the file has. NotStore comes exactly if the file is shorter than a store may be or doesn't
/// begin with the magic, and else Damaged, with page 0 and the rule `size`, exactly if it isn't whole
/// pages, those up to the journal's last among them, that a number of 32 bits counts. Two device calls at
/// most.
pub(crate) fn count_pages<D: Disk>(disk: &mut D) -> Result<u32, OpenError>
    ensures counts { IsTrue (D.is_known disk.old) → Counts result (D.image disk.old) }
    ensures size { IfOk result (ArePages (D.size_of disk.old)) }
    ensures quiet { D.quiet disk.old disk.new }
    ensures image { IsTrue (D.is_known disk.old) → D.image disk.new ≡ D.image disk.old }
    ensures disk { DiskContinues D.is_known D.knows_crashes D.size_of disk.old disk.new }
    ensures fault { CountsOpenFault result (D.faults disk.old) (D.faults disk.new) }
{
    let size = size_in_bytes(disk)?;
    refuse_unmarked(disk, size)?;
    match whole_pages(size) {
        Some(pages) => Ok(pages),
        None => Err(OpenError::Damaged {
            page: 0,
            rule: Rule::Size,
        }),
    }
}

/// The length of the disk. One device call.
fn size_in_bytes<D: Disk>(disk: &mut D) -> Result<u64, DiskFault>
    ensures size { IfOk result (λ size. size ≡ D.size_of disk.old) }
    ensures quiet { D.quiet disk.old disk.new }
    ensures image { IsTrue (D.is_known disk.old) → D.image disk.new ≡ D.image disk.old }
    ensures disk { DiskServes D.is_known D.knows_crashes D.size_of D.faults result disk.old disk.new }
{
    match disk.size() {
        Ok(size) => Ok(size),
        Err(DiskError::Failed) => Err(DiskFault),
        Err(DiskError::Memory) => unreachable!(),
    }
}

/// Refuses a disk of so many bytes that is shorter than a store may be or doesn't begin with the magic. One
/// device call at most.
fn refuse_unmarked<D: Disk>(disk: &mut D, size: u64) -> Result<(), OpenError>
    requires { size ≡ D.size_of disk.old }
    ensures marked { IsTrue (D.is_known disk.old) → FindsMarked result (D.image disk.old) }
    ensures quiet { D.quiet disk.old disk.new }
    ensures image { IsTrue (D.is_known disk.old) → D.image disk.new ≡ D.image disk.old }
    ensures disk { DiskContinues D.is_known D.knows_crashes D.size_of disk.old disk.new }
    ensures fault { CountsOpenFault result (D.faults disk.old) (D.faults disk.new) }
{
    if size < LEAST_SIZE {
        return Err(OpenError::NotStore);
    }
    if !has_magic(disk)? {
        return Err(OpenError::NotStore);
    }
    Ok(())
}

/// Whether the disk begins with the magic of a store's file. One device call.
fn has_magic<D: Disk>(disk: &mut D) -> Result<bool, DiskFault>
    requires { MAGIC_SIZE ≤ D.size_of disk.old }
    ensures magic { IsTrue (D.is_known disk.old) → IfOk result (λ is_there. IsTrue is_there ↔ (magic (D.image disk.old) ≡ store_magic)) }
    ensures quiet { D.quiet disk.old disk.new }
    ensures image { IsTrue (D.is_known disk.old) → D.image disk.new ≡ D.image disk.old }
    ensures disk { DiskServes D.is_known D.knows_crashes D.size_of D.faults result disk.old disk.new }
{
    let mut magic = [0; MAGIC_SIZE];
    read_piece(disk, 0, &mut magic)?;
    Ok(magic == MAGIC)
}

/// How many pages so many bytes are, if they are the pages of a file with a journal and a number of 32 bits
/// counts them.
fn whole_pages(size: u64) -> Option<u32>
    ensures { MatchOption result ((pages : ℕ) → pages ≤ 4294967295 → ArePages size pages → ⊥) (ArePages size) }
{
    if size % PAGE_SIZE as u64 != 0 {
        return None;
    }
    let pages = u32::try_from(size / PAGE_SIZE as u64).ok()?;
    if pages < LEAST_PAGES {
        return None;
    }
    Some(pages)
}
