//! The journal's moves over a disk: a change into the journal, and from there home.
ghost use Rattle.std.specs.Prelude.{◌≡◌, ◌+◌, ◌*◌, ◌<◌, ◌≤◌, [], List, ℕ, false, IsTrue, OnOk, length};
ghost use Rattle.std.specs.Map.{keys_of};
ghost use Rattle.spb_edge.specs.Fault.{CountsError};
ghost use Rattle.spb_edge.specs.Disk.{overwritten_at};
ghost use Rattle.spb_edge.specs.Crash.{IsDurable, Elapses, CrashesLeaveOnly};
ghost use Rattle.redo_journal.specs.Calls.{DiskServes};
ghost use Rattle.redo_journal.specs.declared.layout.TheConstants.{PAGE_SIZE, LEAST_PAGES, CLOSED_GATE};
ghost use Rattle.redo_journal.specs.Pages.{page, gate, IsHome};
ghost use Rattle.redo_journal.specs.Header.{AreHomes};
ghost use Rattle.redo_journal.specs.Redo.{has_open_gate, overlay, RecoversTo, is_listed, DiffersWithin};
ghost use Rattle.redo_journal.specs.Change.{HoldsChange, AreInPlace, IsRedone, Commits, IsBeforeOrAfter};

use crate::DiskFault;
use crate::device::{sync_all, write_and_keep, write_piece};
use crate::layout::{CLOSED_GATE, GATE_AT, HEADER_PAGE, OPEN_GATE, PAGE_SIZE};
use crate::staged::Staged;
use spb_edge::Disk;

/// Writes the staged pages into the journal, and opens its gate.
pub(crate) fn commit_staged<D: Disk>(disk: &mut D, staged: &mut Staged) -> Result<(), DiskFault>
    requires some { 0 < length staged.old.pages }
    requires size { D.size_of disk.old ≡ PAGE_SIZE * staged.old.total }
    requires least { LEAST_PAGES ≤ staged.old.total }
    ensures commits { IsTrue (D.is_known disk.old) → OnOk result (Commits staged.old.total staged.old.pages (D.image disk.old) (D.image disk.new)) }
    ensures any_moment { IsTrue (D.is_known disk.old) → IsTrue (D.knows_crashes disk.old) → IsDurable (D.image disk.old) (D.crash_states disk.old)
        → (marks : List ℕ) (home : ℕ → List ℕ)
        → RecoversTo staged.old.total (D.image disk.old) marks home → has_open_gate (D.image disk.old) ≡ false
        → CrashesLeaveOnly D.moment D.crash_states_since disk.old disk.new (IsBeforeOrAfter staged.old.total staged.old.pages marks home) }
    ensures kept { IsTrue (D.is_known disk.old) → IsTrue (D.knows_crashes disk.old) → OnOk result (IsDurable (D.image disk.new) (D.crash_states disk.new)) }
    ensures others { IsTrue (D.is_known disk.old)
        → (n : ℕ) → IsHome staged.old.total n → page (D.image disk.new) n ≡ page (D.image disk.old) n }
    ensures pages { (staged.new.pages ≡ staged.old.pages) × (staged.new.total ≡ staged.old.total) }
    ensures disk { DiskServes D.is_known D.knows_crashes D.size_of D.faults result disk.old disk.new }
    ensures reads { IsTrue (D.is_known disk.old) → D.reads disk.new ≡ D.reads disk.old }
{
    staged.seal();
    write_and_keep(disk, PAGE_SIZE as u64 * HEADER_PAGE as u64, staged.body())?;
    write_and_keep(disk, GATE_AT, &[OPEN_GATE])
}

/// Writes one page home. One device call.
fn write_home<D: Disk>(disk: &mut D, n: u32, page: &[u8]) -> Result<(), DiskFault>
    requires within { PAGE_SIZE * n + PAGE_SIZE ≤ D.size_of disk.old }
    requires page { length page.now ≡ PAGE_SIZE }
    ensures image { IsTrue (D.is_known disk.old) → OnOk result (D.image disk.new ≡ overwritten_at (D.image disk.old) (PAGE_SIZE * n) page.now) }
    // An image that differed from another one at most within some pages, this one among them, still does.
    ensures differs { IsTrue (D.is_known disk.old) → (total : ℕ) (numbers start : List ℕ) → length start ≡ PAGE_SIZE * total → n < total
        → IsTrue (is_listed n numbers) → DiffersWithin total numbers start (D.image disk.old) → DiffersWithin total numbers start (D.image disk.new) }
    // A crash state that differed from another image at most within some pages, this one among them, still does.
    ensures crash { (total : ℕ) (numbers start : List ℕ) → length start ≡ PAGE_SIZE * total → n < total → IsTrue (is_listed n numbers)
        → ((c : List ℕ) → D.crash_states disk.old c → DiffersWithin total numbers start c) → (c : List ℕ) → D.crash_states disk.new c
        → DiffersWithin total numbers start c }
    ensures time { Elapses (D.moment disk.old) (D.moment disk.new) (D.crash_states_since disk.old) (D.crash_states_since disk.new) (D.crash_states disk.new) }
    ensures disk { DiskServes D.is_known D.knows_crashes D.size_of D.faults result disk.old disk.new }
    ensures reads { IsTrue (D.is_known disk.old) → D.reads disk.new ≡ D.reads disk.old }
{
    write_piece(disk, PAGE_SIZE as u64 * n as u64, page)
}

/// Writes all staged pages home, in ascending order of their numbers.
fn write_all_home<D: Disk>(disk: &mut D, staged: &Staged) -> Result<(), DiskFault>
    requires size { D.size_of disk.old ≡ PAGE_SIZE * staged.now.total }
    requires least { LEAST_PAGES ≤ staged.now.total }
    ensures placed { IsTrue (D.is_known disk.old) → OnOk result (AreInPlace staged.now.pages (D.image disk.new)) }
    ensures differs { IsTrue (D.is_known disk.old)
        → DiffersWithin staged.now.total (keys_of staged.now.pages) (D.image disk.old) (D.image disk.new) }
    ensures any_moment { IsTrue (D.is_known disk.old) → IsDurable (D.image disk.old) (D.crash_states disk.old)
        → CrashesLeaveOnly D.moment D.crash_states_since disk.old disk.new (DiffersWithin staged.now.total (keys_of staged.now.pages) (D.image disk.old)) }
    ensures crash { IsTrue (D.is_known disk.old) → IsDurable (D.image disk.old) (D.crash_states disk.old)
        → (c : List ℕ) → D.crash_states disk.new c → DiffersWithin staged.now.total (keys_of staged.now.pages) (D.image disk.old) c }
    ensures homes { AreHomes staged.now.total 0 (keys_of staged.now.pages) }
    ensures disk { DiskServes D.is_known D.knows_crashes D.size_of D.faults result disk.old disk.new }
    ensures reads { IsTrue (D.is_known disk.old) → D.reads disk.new ≡ D.reads disk.old }
{
    for place in 0..staged.count() {
        let (n, page) = staged.entry(place);
        write_home(disk, n, page)?;
    }
    Ok(())
}

/// Writes all staged pages home, closes the gate, and drops them.
pub(crate) fn settle_staged<D: Disk>(disk: &mut D, staged: &mut Staged) -> Result<(), DiskFault>
    requires size { D.size_of disk.old ≡ PAGE_SIZE * staged.old.total }
    requires least { LEAST_PAGES ≤ staged.old.total }
    ensures settles { IsTrue (D.is_known disk.old) → HoldsChange staged.old.pages (D.image disk.old)
        → OnOk result (IsRedone staged.old.total (D.image disk.old) (D.image disk.new)) }
    ensures closed { IsTrue (D.is_known disk.old) → OnOk result (gate (D.image disk.new) ≡ CLOSED_GATE) }
    ensures any_moment { IsTrue (D.is_known disk.old) → IsTrue (D.knows_crashes disk.old) → IsDurable (D.image disk.old) (D.crash_states disk.old)
        → HoldsChange staged.old.pages (D.image disk.old)
        → (marks : List ℕ) (home : ℕ → List ℕ) → RecoversTo staged.old.total (D.image disk.old) marks home
        → CrashesLeaveOnly D.moment D.crash_states_since disk.old disk.new (λ c. RecoversTo staged.old.total c marks home) }
    ensures kept { IsTrue (D.is_known disk.old) → IsTrue (D.knows_crashes disk.old) → OnOk result (IsDurable (D.image disk.new) (D.crash_states disk.new)) }
    ensures others { IsTrue (D.is_known disk.old) → (n : ℕ) → IsHome staged.old.total n
        → is_listed n (keys_of staged.old.pages) ≡ false → page (D.image disk.new) n ≡ page (D.image disk.old) n }
    ensures cleared { OnOk result (staged.new.pages ≡ []) }
    ensures total { staged.new.total ≡ staged.old.total }
    ensures disk { DiskServes D.is_known D.knows_crashes D.size_of D.faults result disk.old disk.new }
    ensures reads { IsTrue (D.is_known disk.old) → D.reads disk.new ≡ D.reads disk.old }
{
    write_all_home(disk, staged)?;
    sync_all(disk)?;
    write_and_keep(disk, GATE_AT, &[CLOSED_GATE])?;
    staged.clear();
    Ok(())
}
