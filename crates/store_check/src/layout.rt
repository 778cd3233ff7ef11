//! How many pages a store's file has, and what they are for.
ghost use Rattle.std.specs.Prelude.{◌≡◌, ◌≤◌};
ghost use Rattle.store_check.specs.declared.layout.TheConstants.{CAP_LIMIT};
ghost use Rattle.store_check.specs.Layout as words;

use object_file::SLOTS_PER_PAGE;
use redo_journal::layout::{FIRST_HOME, MAGIC_SIZE};

/// The first bytes of a store's file.
pub const MAGIC: [u8; MAGIC_SIZE] = *b"spbstore";

/// The fewest bytes of a file that may be a store: those of the pages up to the journal's header. What is
/// shorter is no store, whatever its bytes are.
pub const LEAST_SIZE: u64 = 2_560;

/// The most objects that a store in a file may have.
pub const CAP_LIMIT: u32 = 65_536;

/// How many pages the slots of so many objects take.
pub fn slot_pages(cap: u32) -> u32
    requires { cap ≤ CAP_LIMIT }
    ensures { result ≡ words.slot_pages cap }
{
    cap.div_ceil(SLOTS_PER_PAGE)
}

/// How many pages the pool of so many objects has. It begins after the slots.
pub fn pool_pages(cap: u32) -> u32
    requires { cap ≤ CAP_LIMIT }
    ensures { result ≡ words.pool_pages cap }
{
    4 * (cap / 15 + 4) + 24
}

/// How many pages a file for so many objects has.
pub fn file_pages(cap: u32) -> u32
    requires { cap ≤ CAP_LIMIT }
    ensures { result ≡ words.file_pages cap }
{
    FIRST_HOME + slot_pages(cap) + pool_pages(cap)
}

/// The sizes of files for 3, 100 and 65,536 objects. The call does nothing.
pub fn worked_sizes()
    ensures slots { (words.slot_pages 3 ≡ 1) × (words.slot_pages 100 ≡ 25) × (words.slot_pages 65536 ≡ 16384) }
    ensures pool { (words.pool_pages 3 ≡ 40) × (words.pool_pages 100 ≡ 64) × (words.pool_pages 65536 ≡ 17516) }
    ensures file { (words.file_pages 3 ≡ 126) × (words.file_pages 100 ≡ 174) × (words.file_pages 65536 ≡ 33985) }
{}
