//! Calls of the disk that fail.
ghost use Rattle.std.specs.Prelude.{◌≡◌, false, IsTrue};
ghost use Rattle.redo_journal.specs.Redo.{has_open_gate};

use crate::files::{byte_of, count_reads, is_refused, numbered_disk, pages_over, put_sevens};
use page_cache::CachedPages;
use spb_edge::Disk;
use std::test::Fail;

#[test]
fn a_refused_get_leaves_the_list(rt: HostRuntime) -> Result<(), Fail> {
    // The fifth call is the second page's.
    let mut disk = numbered_disk(rt.alloc(), &[5])?;
    let mut pages = pages_over(rt.alloc(), &mut disk, 1)?;
    assert_eq!(rt; byte_of(&mut pages, 90)?, 90);
    assert!(rt; is_refused(&mut pages, 91));
    assert_eq!(rt; byte_of(&mut pages, 90)?, 90);
    assert_eq!(rt; byte_of(&mut pages, 91)?, 91);
    // 90 once, 91 twice.
    assert_eq!(rt; count_reads(pages.into_inner().calls()), 3);
    Ok(())
}

/// Fills page 90 with sevens in a change whose commit fails, and gives page 91's byte from before and from afterwards.
fn fail_to_commit<D: Disk>(pages: &mut CachedPages<'_, D>) -> Result<[u8; 2], Fail>
    requires none { (pages.old.pages.is_open ≡ false) × (pages.old.pages.failed ≡ false) }
    requires closed { IsTrue (D.is_known pages.old.pages.disk) → has_open_gate (D.image pages.old.pages.disk) ≡ false }
{
    let before = byte_of(pages, 91)?;
    put_sevens(pages, 90)?;
    if pages.commit().is_ok() {
        return Err(Fail::new("no failure"));
    }
    Ok([before, byte_of(pages, 91)?])
}

#[test]
fn a_commit_that_fails_leaves_what_is_cached(rt: HostRuntime) -> Result<(), Fail> {
    // The ninth call writes page 90 home.
    let mut disk = numbered_disk(rt.alloc(), &[9])?;
    let mut pages = pages_over(rt.alloc(), &mut disk, 1)?;
    assert_eq!(rt; fail_to_commit(&mut pages)?, [91, 91]);
    assert_eq!(rt; count_reads(pages.into_inner().calls()), 1);
    Ok(())
}
