//! Random requests against a plain list of the most recent pages.
ghost use Rattle.std.specs.Prelude.{◌≡◌, ◌≤◌, false, IsTrue};
ghost use Rattle.redo_journal.specs.Redo.{has_open_gate};

use crate::files::{byte_of, count_reads, numbered_disk, pages_over, put_sevens};
use page_cache::CachedPages;
use spb_edge::Disk;
use std::alloc::{AllocError, Global};
use std::test::Fail;

/// The most recent pages, the last one first in line to go; the page that was put, and the one full of sevens; how often a
/// page was missed.
#[derive(Drop)]
struct PlainList {
    recent: Vec<u32>,
    put: Option<u32>,
    sevens: Option<u32>,
    room: usize,
    misses: usize,
}

impl PlainList {
    /// A page is asked for.
    fn note_get(&mut self, n: u32) -> Result<(), AllocError> {
        if self.put == Some(n) {
            return Ok(());
        }
        if !self.recent.contains(&n) {
            self.misses = self.misses.saturating_add(1);
        }
        self.recent.retain(|m| *m != n);
        self.recent.insert(0, n)?;
        self.recent.truncate(self.room);
        Ok(())
    }

    /// A page is filled with sevens in a change.
    fn note_put(&mut self, n: u32) {
        self.recent.retain(|m| *m != n);
        self.put = Some(n);
        self.sevens = Some(n);
    }

    /// The change ends.
    fn note_end(&mut self, commits: bool) {
        self.put = None;
        if !commits {
            self.sevens = None;
        }
    }

    /// Each byte of a page.
    fn byte(&self, n: u32) -> u32 {
        if self.sevens == Some(n) { 7 } else { n }
    }
}

/// Asks for a page, which has to be as the list says.
fn ask<D: Disk>(pages: &mut CachedPages<'_, D>, list: &mut PlainList, n: u32) -> Result<(), Fail>
    ensures open { pages.new.pages.is_open ≡ pages.old.pages.is_open }
    ensures failed { pages.new.pages.failed ≡ pages.old.pages.failed }
    ensures told { D.is_known pages.new.pages.disk ≡ D.is_known pages.old.pages.disk }
    ensures image { IsTrue (D.is_known pages.old.pages.disk) → D.image pages.new.pages.disk ≡ D.image pages.old.pages.disk }
{
    let byte = byte_of(pages, n)?;
    if u32::from(byte) != list.byte(n) {
        return Err(Fail::new("another page"));
    }
    list.note_get(n)?;
    Ok(())
}

/// Asks for 200 pages at random, from the seed on.
fn ask_some<D: Disk>(
    pages: &mut CachedPages<'_, D>,
    list: &mut PlainList,
    seed: u64,
) -> Result<(), Fail>
    ensures open { pages.new.pages.is_open ≡ pages.old.pages.is_open }
    ensures failed { pages.new.pages.failed ≡ pages.old.pages.failed }
    ensures told { D.is_known pages.new.pages.disk ≡ D.is_known pages.old.pages.disk }
    ensures image { IsTrue (D.is_known pages.old.pages.disk) → D.image pages.new.pages.disk ≡ D.image pages.old.pages.disk }
{
    let mut last = seed;
    for turn in 0..200_u64 {
        last ^= last << 13;
        last ^= last >> 7;
        last ^= last << 17;
        let n = 85 + (last.wrapping_add(turn) % 15) as u32;
        ask(pages, list, n)?;
    }
    Ok(())
}

/// A change that fills page `n` with sevens, with requests before, within and after it; it is committed or abandoned.
fn change_some<D: Disk>(
    pages: &mut CachedPages<'_, D>,
    list: &mut PlainList,
    n: u32,
    commits: bool,
) -> Result<(), Fail>
    requires none { (pages.old.pages.is_open ≡ false) × (pages.old.pages.failed ≡ false) }
    requires closed { IsTrue (D.is_known pages.old.pages.disk) → has_open_gate (D.image pages.old.pages.disk) ≡ false }
{
    ask_some(pages, list, u64::from(n) + 77)?;
    put_sevens(pages, n)?;
    list.note_put(n);
    ask_some(pages, list, u64::from(n) + 78)?;
    if commits {
        pages.commit()?;
    } else {
        pages.abandon();
    }
    list.note_end(commits);
    ask_some(pages, list, u64::from(n) + 79)
}

/// How often the disk was read for random requests, and how often a plain list missed a page.
fn reads_and_misses(alloc: Global, room: u32, n: u32, commits: bool) -> Result<(usize, usize), Fail>
    requires room { (1 ≤ room) × (room ≤ 4096) }
{
    let mut disk = numbered_disk(alloc, &[])?;
    let mut pages = pages_over(alloc, &mut disk, room)?;
    let mut list = PlainList {
        recent: Vec::new(alloc),
        put: None,
        sevens: None,
        room: room as usize,
        misses: 0,
    };
    change_some(&mut pages, &mut list, n, commits)?;
    Ok((count_reads(pages.into_inner().calls()), list.misses))
}

#[test]
fn random_requests_read_as_a_plain_list_misses(rt: HostRuntime) -> Result<(), Fail> {
    for n in 85..100_u32 {
        let room = 1 + n * 7 % 15;
        let (reads, misses) = reads_and_misses(rt.alloc(), room, n, n % 2 == 0)?;
        assert_eq!(rt; reads, misses, "{room}");
    }
    let (reads, misses) = reads_and_misses(rt.alloc(), 4096, 88, true)?;
    assert_eq!(rt; reads, misses);
    Ok(())
}
