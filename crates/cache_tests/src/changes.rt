//! Pages that are put in a change.
ghost use Rattle.std.specs.Prelude.{◌≡◌, false, IsTrue};
ghost use Rattle.redo_journal.specs.Redo.{has_open_gate};

use crate::files::{byte_of, count_reads, numbered_disk, pages_over, put_sevens};
use page_cache::CachedPages;
use spb_edge::Disk;
use std::test::Fail;

/// Fills page 90 with sevens in a change that is committed, and gives its bytes before, in between and afterwards.
fn commit_sevens<D: Disk>(pages: &mut CachedPages<'_, D>) -> Result<[u8; 3], Fail>
    requires none { (pages.old.pages.is_open ≡ false) × (pages.old.pages.failed ≡ false) }
    requires closed { IsTrue (D.is_known pages.old.pages.disk) → has_open_gate (D.image pages.old.pages.disk) ≡ false }
{
    let before = byte_of(pages, 90)?;
    put_sevens(pages, 90)?;
    let within = byte_of(pages, 90)?;
    pages.commit()?;
    Ok([before, within, byte_of(pages, 90)?])
}

#[test]
fn a_put_page_is_read_from_the_change(rt: HostRuntime) -> Result<(), Fail> {
    let mut disk = numbered_disk(rt.alloc(), &[])?;
    let mut pages = pages_over(rt.alloc(), &mut disk, 3)?;
    assert_eq!(rt; commit_sevens(&mut pages)?, [90, 7, 7]);
    assert_eq!(rt; byte_of(&mut pages, 90)?, 7);
    // Once before the put, and once after the commit.
    assert_eq!(rt; count_reads(pages.into_inner().calls()), 2);
    Ok(())
}

/// As [`commit_sevens`], but the change is abandoned.
fn abandon_sevens<D: Disk>(pages: &mut CachedPages<'_, D>) -> Result<[u8; 3], Fail>
    requires closed { pages.old.pages.is_open ≡ false }
{
    let before = byte_of(pages, 90)?;
    put_sevens(pages, 90)?;
    let within = byte_of(pages, 90)?;
    pages.abandon();
    Ok([before, within, byte_of(pages, 90)?])
}

#[test]
fn an_abandoned_page_is_as_before(rt: HostRuntime) -> Result<(), Fail> {
    let mut disk = numbered_disk(rt.alloc(), &[])?;
    let mut pages = pages_over(rt.alloc(), &mut disk, 3)?;
    assert_eq!(rt; abandon_sevens(&mut pages)?, [90, 7, 90]);
    // Once before the put, and once after the end of the change.
    assert_eq!(rt; count_reads(pages.into_inner().calls()), 2);
    Ok(())
}
