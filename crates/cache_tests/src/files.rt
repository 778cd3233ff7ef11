//! Disks of 100 pages, each filled with its number, and cached pages over them.
ghost use Rattle.std.specs.Prelude.{◌≡◌, ◌≤◌, false, true, IsTrue, IfOk, OnOk};
ghost use Rattle.redo_journal.specs.Redo.{has_open_gate};

use page_cache::CachedPages;
use page_laws::{PageError, Pages};
use page_store::PageStore;
use redo_journal::Journal;
use spb_edge::{Disk, DiskCall, MemDisk};
use std::alloc::{AllocError, Global};
use std::test::Fail;

/// A file of 100 pages, each byte the number of its page, but for the first pages, which are zero.
fn numbered_file(alloc: Global) -> Result<Vec<u8>, AllocError> {
    let mut file = Vec::new(alloc);
    for n in 0..100_u8 {
        let byte = if n < 85 { 0 } else { n };
        file.resize(512 * (n as usize + 1), byte)?;
    }
    Ok(file)
}

/// The disk of such a file, whose calls in `failing` fail.
pub(crate) fn numbered_disk(alloc: Global, failing: &[u64]) -> Result<MemDisk, Fail> {
    let file = numbered_file(alloc)?;
    Ok(MemDisk::new(alloc, &file, failing, None, 4096, 65536)?)
}

/// Cached pages over a disk of 100 pages, recovered by two calls after one for its size. The pool are the pages 85 to 99,
/// none of them free.
pub(crate) fn pages_over<'a, D: Disk>(
    alloc: Global,
    disk: &'a mut D,
    room: u32,
) -> Result<CachedPages<'a, D>, Fail>
    requires room { (1 ≤ room) × (room ≤ 4096) }
    ensures closed { IfOk result (λ pages. IsTrue (D.is_known pages.pages.disk) → has_open_gate (D.image pages.pages.disk) ≡ false) }
    ensures none { IfOk result (λ pages. (pages.pages.is_open ≡ false) × (pages.pages.failed ≡ false)) }
{
    if disk.size()? != 51200 {
        return Err(Fail::new("not 100 pages"));
    }
    let mut journal = Journal::new(alloc, disk, 100)?;
    journal.recover()?;
    let store = PageStore::new(alloc, journal, 85, 15, &[])?;
    Ok(CachedPages::new(alloc, store, room)?)
}

/// Each byte of page `n`, which is live.
pub(crate) fn byte_of<D: Disk>(pages: &mut CachedPages<'_, D>, n: u32) -> Result<u8, Fail>
    ensures open { pages.new.pages.is_open ≡ pages.old.pages.is_open }
    ensures failed { pages.new.pages.failed ≡ pages.old.pages.failed }
    ensures told { D.is_known pages.new.pages.disk ≡ D.is_known pages.old.pages.disk }
    ensures image { IsTrue (D.is_known pages.old.pages.disk) → D.image pages.new.pages.disk ≡ D.image pages.old.pages.disk }
{
    if !pages.is_live(n) {
        return Err(Fail::new("no page of the pool"));
    }
    let mut page = [0; 512];
    pages.get(n, &mut page)?;
    if page != [page[0]; 512] {
        return Err(Fail::new("the bytes differ"));
    }
    Ok(page[0])
}

/// Opens a change, and in it fills page `n`, which is live, with sevens.
pub(crate) fn put_sevens<D: Disk>(pages: &mut CachedPages<'_, D>, n: u32) -> Result<(), Fail>
    requires closed { pages.old.pages.is_open ≡ false }
    ensures open { OnOk result (pages.new.pages.is_open ≡ true) }
    ensures failed { pages.new.pages.failed ≡ pages.old.pages.failed }
    ensures disk { pages.new.pages.disk ≡ pages.old.pages.disk }
{
    if !pages.is_live(n) {
        return Err(Fail::new("no page of the pool"));
    }
    pages.begin();
    pages.put(n, &[7; 512]);
    Ok(())
}

/// Whether page `n`, which is live, isn't given because the disk failed.
pub(crate) fn is_refused<D: Disk>(pages: &mut CachedPages<'_, D>, n: u32) -> bool {
    if !pages.is_live(n) {
        return false;
    }
    let mut page = [0; 512];
    pages.get(n, &mut page) == Err(PageError::Fault)
}

/// How many of the calls are reads of pages from 85 on.
pub(crate) fn count_reads(calls: &[DiskCall]) -> usize {
    calls
        .iter()
        .filter(|call| matches!(call, DiskCall::Read { at: _, len: 512 }))
        .count()
}
