//! Asks for pages many times over, through a page cache or without one, so that a script can time it.
//!
//! A line of standard input is such as `turns 64 1000`: which pages are asked for, for how many the cache has room, and
//! how often. Without room there is no cache. The answer is the line, and a sum that depends on each page that was given;
//! or how often the disk was read.
#![tactic(auto)]

mod asking;
mod request;

use crate::asking::{turn_sum, walk_sum};
use crate::request::{Job, Request, read_request};
use page_cache::{CachedPages, MOST_ROOM};
use page_laws::{PAGE_SIZE, PageError, Pages};
use page_store::PageStore;
use redo_journal::Journal;
use spb_edge::{Disk, DiskCall, MemDisk, SureDisk};
use std::alloc::{AllocError, Global};

/// The first page that is asked for.
const FIRST: u32 = 85;

/// How many pages there are to ask for: the nodes of a tree of five levels, with eight children each.
const NODES: u32 = 4681;

/// How many pages the file has.
const TOTAL: u32 = FIRST + NODES;

fn main(rt: HostRuntime) -> anyhow::Result<()> {
    for line in rt.lines(rt.alloc()) {
        let line = line?;
        match read_request(rt.alloc(), line.as_str())? {
            Some(request) => println!(rt; "{line} {}", answer(rt.alloc(), request)?)?,
            None => println!(rt; "{line} isn't known")?,
        }
    }
    Ok(())
}

/// The number that is asked for.
fn answer(alloc: Global, request: Request) -> anyhow::Result<u64> {
    let file = numbered_file(alloc)?;
    if let Job::Reads = request.job {
        return reads(alloc, &file, request);
    }
    let mut disk = SureDisk::new(alloc, &file)?;
    sum_over(alloc, &mut disk, request)
}

/// How often pages are read from the disk.
fn reads(alloc: Global, file: &[u8], request: Request) -> anyhow::Result<u64> {
    let calls = (request.rounds as usize)
        .saturating_mul(5)
        .saturating_add(16);
    let mut disk = MemDisk::new(alloc, file, &[], None, calls, 0)?;
    sum_over(alloc, &mut disk, request)?;
    let reads = disk
        .calls()
        .iter()
        .filter(|call| matches!(call, DiskCall::Read { at: _, len: 512 }));
    Ok(reads.count() as u64)
}

/// A file each byte of whose pages to ask for is the last one of the page's number.
fn numbered_file(alloc: Global) -> Result<Vec<u8>, AllocError> {
    let mut file = Vec::new(alloc);
    for n in 0..TOTAL {
        let byte = if n < FIRST { 0 } else { (n % 256) as u8 };
        file.resize(PAGE_SIZE * (n as usize + 1), byte)?;
    }
    Ok(file)
}

/// The sum over a disk's pages, with a cache or without one.
fn sum_over<D: Disk>(alloc: Global, disk: &mut D, request: Request) -> anyhow::Result<u64> {
    if disk.size()? != 512 * u64::from(TOTAL) {
        anyhow::bail!("another number of pages");
    }
    let mut journal = Journal::new(alloc, disk, TOTAL)?;
    journal.recover()?;
    let mut store = PageStore::new(alloc, journal, FIRST, NODES, &[])?;
    let room = request.room;
    if room == 0 {
        return Ok(sum(&mut store, request)?);
    }
    if room > MOST_ROOM {
        anyhow::bail!("too much room");
    }
    let mut pages = CachedPages::new(alloc, store, room)?;
    Ok(sum(&mut pages, request)?)
}

/// The sum over these pages.
fn sum<P: Pages>(pages: &mut P, request: Request) -> Result<u64, PageError> {
    match request.job {
        Job::Turns => turn_sum(pages, request.rounds),
        Job::Walks | Job::Reads => walk_sum(pages, request.rounds),
    }
}
