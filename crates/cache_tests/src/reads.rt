//! How often requests for pages read the disk.
use crate::files::{byte_of, count_reads, numbered_disk, pages_over};
use page_cache::CachedPages;
use spb_edge::Disk;
use std::alloc::Global;
use std::test::Fail;

/// Asks for each of the pages, and says whether each has its number in its bytes.
fn are_given<D: Disk>(pages: &mut CachedPages<'_, D>, numbers: &[u32]) -> Result<bool, Fail> {
    for n in numbers {
        if u32::from(byte_of(pages, *n)?) != *n {
            return Ok(false);
        }
    }
    Ok(true)
}

/// How often the disk is read for these pages, asked for in this order, if room is enough for one.
fn reads_for(alloc: Global, room: u32, numbers: &[u32]) -> Result<usize, Fail> {
    if room == 0 || room > 4096 {
        return Err(Fail::new("no such room"));
    }
    let mut disk = numbered_disk(alloc, &[])?;
    let mut pages = pages_over(alloc, &mut disk, room)?;
    if !are_given(&mut pages, numbers)? {
        return Err(Fail::new("another page"));
    }
    Ok(count_reads(pages.into_inner().calls()))
}

#[test]
fn pages_are_read_as_the_list_says(rt: HostRuntime) -> Result<(), Fail> {
    for (room, numbers, reads) in [
        (3, [90, 91, 92, 90, 93, 90].as_slice(), 4),
        (3, [90, 91, 92, 90, 93, 90, 91].as_slice(), 5),
        (1, [90, 91, 90].as_slice(), 3),
        (1, [90, 90, 90].as_slice(), 1),
        (2, [90, 91, 90, 92, 91].as_slice(), 4),
        (4096, [90, 91, 92, 93, 94, 90, 91, 92, 93, 94].as_slice(), 5),
    ] {
        assert_eq!(rt; reads_for(rt.alloc(), room, numbers)?, reads);
    }
    Ok(())
}
