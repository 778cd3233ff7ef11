//! A page that is committed over a fresh disk, and a crash on the way.
ghost use Rattle.std.specs.Prelude.{◌≡◌, ◌*◌, [], ◌∷◌, List, ℕ, false, IsTrue, IfOk, length};
ghost use Rattle.spb_edge.specs.Crash.{IsDurable, CrashesLeaveOnly};
ghost use Rattle.redo_journal.specs.Redo.{has_open_gate, RecoversTo};
ghost use Rattle.redo_journal.specs.Change.{IsBeforeOrAfter};

use crate::files::{Home, changed, disk_of, file, recover};
use redo_journal::Journal;
use spb_edge::{Bytes, Choice, Disk, MemDisk, Memory};
use std::alloc::Global;
use std::test::Fail;

/// Stages and commits one page of a file of 90. Whatever the commit answers, a crash on the way leaves
/// the pages without this one or with it.
fn commit_page<D: Disk>(alloc: Global, disk: &mut D, page: &[u8; 512]) -> Result<(), Memory>
    requires size { D.size_of disk.old ≡ 512 * 90 }
    ensures any_moment { IsTrue (D.is_known disk.old) → IsTrue (D.knows_crashes disk.old) → IsDurable (D.image disk.old) (D.crash_states disk.old)
        → (marks : List ℕ) (home : ℕ → List ℕ)
        → RecoversTo 90 (D.image disk.old) marks home → has_open_gate (D.image disk.old) ≡ false
        → CrashesLeaveOnly D.moment D.crash_states_since disk.old disk.new (IsBeforeOrAfter 90 ((86, page.now) ∷ []) marks home) }
{
    let mut journal = match Journal::new_or_back(alloc, disk, 90) {
        Ok(journal) => journal,
        Err(back) => {
            let (memory, _disk) = back;
            return Err(memory);
        }
    };
    let Ok(()) = journal.stage(86, page) else {
        unreachable!()
    };
    let _ = journal.commit();
    let _disk = journal.into_inner();
    Ok(())
}

/// What a crash leaves of a file of 90 pages whose page 86 was committed over a fresh disk, some of whose
/// calls fail: the pages without the new one or with it. The prover sees by it that the disk in memory
/// tells its image and its crash images, and that the journal's clauses on crashes say something of it.
fn commit_and_crash(
    alloc: Global,
    image: &[u8],
    failing: &[u64],
    page: &[u8; 512],
    choice: Choice,
) -> Result<Bytes, Memory>
    requires size { length image.now ≡ 512 * 90 }
    ensures either { (marks : List ℕ) (home : ℕ → List ℕ) → RecoversTo 90 image.now marks home → has_open_gate image.now ≡ false
        → IfOk result (λ bytes. IsBeforeOrAfter 90 ((86, page.now) ∷ []) marks home bytes) }
{
    let mut disk = MemDisk::new(alloc, image, failing, None, 16, 8192)?;
    commit_page(alloc, &mut disk, page)?;
    disk.after_crash(alloc, choice)
}

/// What page 86 is after the crash and a recovery, if the file had it full of its number.
fn page_after_crash(
    alloc: Global,
    old: &[u8],
    failing: &[u64],
    choice: Choice,
) -> Result<Home, Fail> {
    if old.len() != 46080 {
        return Err(Fail::new("not 90 pages"));
    }
    let left = commit_and_crash(alloc, old, failing, &changed(86), choice)?;
    let mut disk = disk_of(alloc, left.as_slice(), &[], None)?;
    recover(alloc, &mut disk)??;
    let page = disk.image().get(44032..44544).unwrap_or(&[]);
    if page == changed(86).as_slice() {
        return Ok(Home::New);
    }
    if page == [86; 512].as_slice() {
        return Ok(Home::Old);
    }
    Ok(Home::Mixed)
}

#[test]
fn a_crash_leaves_a_committed_page_or_none(rt: HostRuntime) -> Result<(), Fail> {
    let old = file(rt.alloc(), 90)?;
    // The calls of a commit: the journal and a sync, the gate and a sync. A fifth one isn't made.
    let none_fails = page_after_crash(rt.alloc(), &old, &[5], Choice::DropAll)?;
    assert!(rt; none_fails == Home::New);
    let gate_not_kept = page_after_crash(rt.alloc(), &old, &[4], Choice::DropAll)?;
    assert!(rt; gate_not_kept == Home::Old);
    let gate_torn_open = page_after_crash(rt.alloc(), &old, &[3], Choice::Fill(1))?;
    assert!(rt; gate_torn_open == Home::New);
    Ok(())
}
