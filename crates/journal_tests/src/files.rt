//! Files of pages, a change of two of their pages, and what a file stands for.
use redo_journal::{DiskFault, Journal, RecoverError};
use spb_edge::MemDisk;
use std::alloc::{AllocError, Global};
use std::test::Fail;

/// What a file of 90 pages stands for, as far as the change is concerned.
#[derive(Clone, Copy, Debug, PartialEq, Eq)]
pub(crate) enum Home {
    Old,
    New,
    Mixed,
}

/// A file of so many pages: the magic, a closed gate, and each page after the mark page full of its
/// number.
pub(crate) fn file(alloc: Global, pages: u32) -> Result<Vec<u8>, AllocError> {
    let mut file = Vec::new(alloc);
    file.extend_from_slice(b"spbstore")?;
    file.extend_from_slice(&[0; 504])?;
    for n in 1..pages {
        file.extend_from_slice(&[(n % 256) as u8; 512])?;
    }
    Ok(file)
}

/// The new content of a page.
pub(crate) fn changed(n: u8) -> [u8; 512] {
    [n ^ 0x80; 512]
}

/// The pages of a file of 90 that a change may replace, in their old or their new content.
pub(crate) fn home_of(image: &[u8]) -> Home {
    let (mut old, mut new) = (true, true);
    for n in [3u8, 85] {
        let at = n as usize * 512;
        let page = image.get(at..at + 512).unwrap_or(&[]);
        old &= page == [n; 512].as_slice();
        new &= page == changed(n).as_slice();
    }
    for n in [1u8, 2, 86, 87, 88, 89] {
        let at = n as usize * 512;
        let page = image.get(at..at + 512).unwrap_or(&[]);
        if page != [n; 512].as_slice() {
            return Home::Mixed;
        }
    }
    match (old, new) {
        (true, false) => Home::Old,
        (false, true) => Home::New,
        _ => Home::Mixed,
    }
}

/// A disk of 90 pages with this image, which stops after so many calls and whose calls in `failing`
/// fail.
pub(crate) fn disk_of(
    alloc: Global,
    image: &[u8],
    failing: &[u64],
    stop: Option<u64>,
) -> Result<MemDisk, Fail> {
    Ok(MemDisk::new(alloc, image, failing, stop, 16, 8192)?)
}

/// Stages the two pages, the higher first, commits them and settles them; whether no fault came.
pub(crate) fn change(alloc: Global, disk: &mut MemDisk) -> Result<bool, Fail> {
    if disk.image().len() != 46080 {
        return Err(Fail::new("not 90 pages"));
    }
    let mut journal = Journal::new(alloc, disk, 90)?;
    journal.stage(85, &changed(85))?;
    journal.stage(3, &changed(3))?;
    if journal.commit() == Err(DiskFault) {
        return Ok(false);
    }
    Ok(journal.settle() == Ok(()))
}

/// Finishes the change that a file of 90 pages holds.
pub(crate) fn recover(alloc: Global, disk: &mut MemDisk) -> Result<Result<(), RecoverError>, Fail> {
    if disk.image().len() != 46080 {
        return Err(Fail::new("not 90 pages"));
    }
    let mut journal = Journal::new(alloc, disk, 90)?;
    Ok(journal.recover())
}

/// What the file stands for once it is recovered.
pub(crate) fn home_after_recovery(alloc: Global, image: &[u8]) -> Result<Home, Fail> {
    let mut disk = disk_of(alloc, image, &[], None)?;
    recover(alloc, &mut disk)??;
    if disk.image().get(16) == Some(&1) {
        return Err(Fail::new("the gate is open"));
    }
    Ok(home_of(disk.image()))
}
