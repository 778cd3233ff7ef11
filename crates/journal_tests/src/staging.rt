//! Pages that are staged.
use crate::files::file;
use redo_journal::{Journal, StageError};
use spb_edge::{Disk, SureDisk};
use std::test::Fail;

#[test]
fn eighty_pages_and_no_more(rt: HostRuntime) -> Result<(), Fail> {
    let image = file(rt.alloc(), 166)?;
    let mut disk = SureDisk::new(rt.alloc(), &image)?;
    if disk.size()? != 84992 {
        return Err(Fail::new("not 166 pages"));
    }
    let mut journal = Journal::new(rt.alloc(), &mut disk, 166)?;
    for n in 85..165 {
        assert!(rt; journal.stage(n, &[7; 512]) == Ok(()), "{n}");
    }
    assert!(rt; journal.stage(165, &[8; 512]) == Err(StageError::TooMany));
    assert!(rt; journal.stage(90, &[9; 512]) == Ok(()));
    journal.clear();
    assert!(rt; journal.stage(165, &[8; 512]) == Ok(()));
    let mut page = [0; 512];
    journal.read_page(165, &mut page)?;
    assert_eq!(rt; page, [165; 512]);
    journal.commit()?;
    journal.settle()?;
    journal.read_page(165, &mut page)?;
    assert_eq!(rt; page, [8; 512]);
    let disk = journal.into_inner();
    assert_eq!(rt; disk.size()?, 84992);
    Ok(())
}

#[test]
fn a_staged_page_is_found_by_its_number(rt: HostRuntime) -> Result<(), Fail> {
    let image = file(rt.alloc(), 90)?;
    let mut disk = SureDisk::new(rt.alloc(), &image)?;
    if disk.size()? != 46080 {
        return Err(Fail::new("not 90 pages"));
    }
    let mut journal = Journal::new(rt.alloc(), &mut disk, 90)?;
    journal.stage(86, &[8; 512])?;
    journal.stage(3, &[7; 512])?;
    assert!(rt; journal.staged_page(86) == Some([8; 512].as_slice()));
    assert!(rt; journal.staged_page(3) == Some([7; 512].as_slice()));
    assert!(rt; journal.staged_page(85).is_none());
    journal.clear();
    assert!(rt; journal.staged_page(86).is_none());
    Ok(())
}
