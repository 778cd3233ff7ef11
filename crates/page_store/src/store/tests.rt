//! Changes over disks of 90 zero pages.
ghost use Rattle.std.specs.Prelude.{◌≡◌, [], ◌∷◌, false, IsTrue, IfOk};
ghost use Rattle.redo_journal.specs.Redo.{has_open_gate};
ghost use Rattle.page_store.specs.PageStore.{has, Ends};

use super::*;
use spb_edge::{DiskCall, MemDisk, SureDisk};
use std::alloc::AllocError;
use std::test::Fail;

/// A file of 90 zero pages.
fn zero_file(alloc: Global) -> Result<Vec<u8>, AllocError> {
    let mut file = Vec::new(alloc);
    file.resize(46080, 0)?;
    Ok(file)
}

/// The pages of a disk of 90, recovered. The pool are the pages 86 to 89, of which 86 and 89 are free.
fn pages_over<'a, D: Disk>(alloc: Global, disk: &'a mut D) -> Result<PageStore<'a, D>, Fail>
    requires size { D.size_of disk.old ≡ 46080 }
    ensures closed { IfOk result (λ store. IsTrue (D.is_known store.disk) → has_open_gate (D.image store.disk) ≡ false) }
    ensures pool { IfOk result (λ store. (store.total ≡ 90) × (store.first ≡ 86) × (store.count ≡ 4) × (store.free ≡ 86 ∷ 89 ∷ [])) }
    ensures none { IfOk result (λ store. (store.is_open ≡ false) × (store.failed ≡ false)) }
{
    let mut journal = Journal::new(alloc, disk, 90)?;
    journal.recover()?;
    Ok(PageStore::new(alloc, journal, 86, 4, &[86, 89])?)
}

/// Puts page 87 in a change of its own.
fn change_page<D: Disk>(store: &mut PageStore<'_, D>, page: &[u8; 512]) -> Result<(), DiskFault>
    requires none { (store.old.is_open ≡ false) × (store.old.failed ≡ false) }
    requires closed { IsTrue (D.is_known store.old.disk) → has_open_gate (D.image store.old.disk) ≡ false }
    requires there { IsTrue (has store.old 87) }
{
    store.begin();
    store.put(87, page);
    store.commit()
}

#[test]
fn what_is_put_comes_home(rt: HostRuntime) -> Result<(), Fail> {
    let file = zero_file(rt.alloc())?;
    let mut disk = SureDisk::new(rt.alloc(), &file)?;
    if disk.size()? != 46080 {
        return Err(Fail::new("not 90 pages"));
    }
    let mut store = pages_over(rt.alloc(), &mut disk)?;
    change_page(&mut store, &[7; 512])?;
    let disk = store.into_inner();
    if disk.size()? != 46080 {
        return Err(Fail::new("not 90 pages any more"));
    }
    let mut page = [0; 512];
    disk.read(44544, &mut page)?;
    assert_eq!(rt; page, [7; 512]);
    Ok(())
}

#[test]
fn an_abandoned_change_leaves_nothing(rt: HostRuntime) -> Result<(), Fail> {
    let file = zero_file(rt.alloc())?;
    let mut disk = SureDisk::new(rt.alloc(), &file)?;
    if disk.size()? != 46080 {
        return Err(Fail::new("not 90 pages"));
    }
    let mut store = pages_over(rt.alloc(), &mut disk)?;
    store.begin();
    store.put(3, &[7; 512]);
    let taken = store.take_page();
    if !store.is_live(88) {
        return Err(Fail::new("page 88 is free"));
    }
    store.give_page(88);
    let mut page = [0; 512];
    store.get(3, &mut page)?;
    assert_eq!(rt; page, [7; 512]);
    assert!(rt; store.is_live(taken));
    store.abandon();
    store.get(3, &mut page)?;
    assert_eq!(rt; page, [0; 512]);
    assert_eq!(rt; store.free_pages(), 2);
    assert!(rt; !store.is_live(taken));
    assert!(rt; store.is_live(88));
    Ok(())
}

/// A disk of 90 zero pages whose calls in `failing` fail.
fn zero_disk(alloc: Global, failing: &[u64]) -> Result<MemDisk, Fail> {
    let file = zero_file(alloc)?;
    Ok(MemDisk::new(alloc, &file, failing, None, 16, 8192)?)
}

#[test]
fn without_a_page_no_device_call_is_made(rt: HostRuntime) -> Result<(), Fail> {
    let mut disk = zero_disk(rt.alloc(), &[])?;
    if disk.image().len() != 46080 {
        return Err(Fail::new("not 90 pages"));
    }
    let mut store = pages_over(rt.alloc(), &mut disk)?;
    store.begin();
    store.take_page();
    store.commit()?;
    assert_eq!(rt; store.free_pages(), 1);
    let disk = store.into_inner();
    // Those of the recovery.
    assert!(rt; disk.calls() == [DiskCall::Sync, DiskCall::Read { at: 16, len: 1 }].as_slice());
    Ok(())
}

#[test]
fn a_commit_that_fails_is_remembered(rt: HostRuntime) -> Result<(), Fail> {
    let mut disk = zero_disk(rt.alloc(), &[3])?;
    if disk.image().len() != 46080 {
        return Err(Fail::new("not 90 pages"));
    }
    let mut store = pages_over(rt.alloc(), &mut disk)?;
    assert!(rt; change_page(&mut store, &[7; 512]) == Err(DiskFault));
    assert!(rt; store.failed);
    Ok(())
}
