//! A redo journal with a gate over a disk.
ghost use Rattle.spb_edge.specs.Calls.{StaysKnown};
ghost use Rattle.std.specs.Prelude.{◌≡◌, ◌⊎◌, ◌*◌, ◌<◌, ◌≤◌, ◌==◌, [], List, ℕ, false, IsTrue, OnOk, IfOk, IfErr, IfSome, MatchOption, None, Some, length};
ghost use Rattle.std.specs.Map.{keys_of, lookup};
ghost use Rattle.spb_edge.specs.Fault.{CountsError, next_count};
ghost use Rattle.spb_edge.specs.Crash.{IsDurable, CrashesLeaveOnly};
ghost use Rattle.redo_journal.specs.declared.layout.TheConstants.{PAGE_SIZE, CHANGE_LIMIT, HEADER_PAGE, LEAST_PAGES, CLOSED_GATE};
ghost use Rattle.redo_journal.specs.Pages.{page, gate, IsHome};
ghost use Rattle.redo_journal.specs.Header.{page_numbers};
ghost use Rattle.redo_journal.specs.Redo.{has_open_gate, RecoversTo, is_listed, DiffersWithin};
ghost use Rattle.redo_journal.specs.Change.{with_page, Stages, HoldsChange, Commits, IsBeforeOrAfter, IsRedone, Recovers, OnBadHeader, CountsRecoverFault};
ghost use Rattle.redo_journal.specs.Staging.{AddsOne, OverlaysOne};

use crate::layout::PAGE_SIZE;
use crate::moves::{commit_staged, settle_staged};
use crate::recovery::{read_page, recover_staged};
use crate::staged::Staged;
use crate::{DiskFault, RecoverError, StageError};
use spb_edge::{Disk, Memory};
use std::alloc::Global;

/// A page file in which a change of up to 80 pages happens whole or not at all.
///
/// The file is a row of pages of 512 bytes. Page 0 holds the gate, page 4 the journal's header and pages 5 to 84 its
/// images; a change may replace the pages 1 to 3 and those from 85 on. A change is staged page by page,
/// [committed](Journal::commit) into the journal, and [settled](Journal::settle) from there. From the end of the commit
/// on it has happened, whenever the machine stops: whoever opens the file then calls [`recover`](Journal::recover)
/// first.
///
/// It keeps the reference that it was made with, and hands it back by
/// [`into_inner`](Journal::into_inner). Dropping it makes no device call. What the calls say of the
/// disk's bytes holds for disks whose bytes are known.
#[derive(Drop)]
pub struct Journal<'a, D: Disk> {
    disk: &'a mut D,
    staged: Staged,
}

impl<'a, D: Disk> Journal<'a, D> {
    ghost use Rattle.redo_journal.specs.Journal.{disk_of, total_of, staged_of, HasPages};

    /// A journal over a disk of `total` whole pages, at least 85, with no page staged. It takes the room
    /// for a change here, 81 pages, so that no later call takes memory. No device call is made.
    pub fn new(alloc: Global, disk: &'a mut D, total: u32) -> Result<Self, Memory>
        requires least { LEAST_PAGES ≤ total }
        requires size { D.size_of disk.old ≡ PAGE_SIZE * total }
        ensures pages { IfOk result (λ journal. HasPages D.size_of journal) }
        ensures none { IfOk result (λ journal. staged_of journal ≡ []) }
        ensures total { IfOk result (λ journal. total_of journal ≡ total) }
        ensures name { IfOk result (λ journal. journal.disk.ghost_name ≡ disk.entry.ghost_name) }
        ensures at { IfOk result (λ journal. disk_of journal ≡ disk.old) }
    {
        match Journal::new_or_back(alloc, disk, total) {
            Ok(journal) => Ok(journal),
            Err(back) => {
                let (memory, _disk) = back;
                Err(memory)
            }
        }
    }

    /// As [`new`](Journal::new), but if memory runs out it hands the disk back, so that a caller's contract can still
    /// speak of it.
    pub fn new_or_back(
        alloc: Global,
        disk: &'a mut D,
        total: u32,
    ) -> Result<Self, (Memory, &'a mut D)>
        requires least { LEAST_PAGES ≤ total }
        requires size { D.size_of disk.old ≡ PAGE_SIZE * total }
        ensures pages { IfOk result (λ journal. HasPages D.size_of journal) }
        ensures none { IfOk result (λ journal. staged_of journal ≡ []) }
        ensures total { IfOk result (λ journal. total_of journal ≡ total) }
        ensures name { IfOk result (λ journal. journal.disk.ghost_name ≡ disk.entry.ghost_name) }
        ensures at { IfOk result (λ journal. disk_of journal ≡ disk.old) }
        ensures back { IfErr result (λ back. (back.1.now ≡ disk.old) × (back.1.ghost_name ≡ disk.entry.ghost_name)) }
    {
        match Staged::new(alloc, total) {
            Ok(staged) => Ok(Journal { disk, staged }),
            Err(memory) => Err((memory, disk)),
        }
    }

    /// Hands back the reference that the journal was made with. No device call is made.
    pub fn into_inner(self) -> &'a mut D
        ensures name { result.ghost_name ≡ self.entry.disk.ghost_name }
        ensures disk { result.now ≡ disk_of self.entry }
    {
        self.disk
    }

    /// Finishes the change that the journal holds: each page is then as redone, and the gate is closed.
    ///
    /// No page may be staged. It syncs first. `BadHeader` comes exactly if the gate is open over a header with a field
    /// out of its range, keeps the first such field, and nothing is written then. `DiskFault` comes only if the disk
    /// counted a fault in this call; open the file again then. A crash during the call, and a second recovery, change
    /// nothing of what the file stands for. A device call to sync, one for the gate, and if it is open one for the
    /// header, one for the images, and those of [`settle`](Journal::settle).
    pub fn recover(&mut self) -> Result<(), RecoverError>
        requires pages { HasPages D.size_of self.old }
        requires none { staged_of self.old ≡ [] }
        ensures recovers { IsTrue (D.is_known (disk_of self.old))
            → Recovers (total_of self.old) result (D.image (disk_of self.old)) (D.image (disk_of self.new)) }
        ensures home { IsTrue (D.is_known (disk_of self.old)) → (marks : List ℕ) (home : ℕ → List ℕ)
            → RecoversTo (total_of self.old) (D.image (disk_of self.old)) marks home
            → OnOk result (RecoversTo (total_of self.old) (D.image (disk_of self.new)) marks home) }
        ensures closed { IsTrue (D.is_known (disk_of self.old)) → OnOk result (has_open_gate (D.image (disk_of self.new)) ≡ false) }
        ensures any_start { IsTrue (D.is_known (disk_of self.old)) → IsTrue (D.knows_crashes (disk_of self.old))
            → (marks : List ℕ) (home : ℕ → List ℕ) → RecoversTo (total_of self.old) (D.image (disk_of self.old)) marks home
            → CrashesLeaveOnly D.moment D.crash_states_since (disk_of self.old) (disk_of self.new)
            (λ c. D.crash_states (disk_of self.old) c ⊎ RecoversTo (total_of self.old) c marks home) }
        ensures any_moment { IsTrue (D.is_known (disk_of self.old)) → IsTrue (D.knows_crashes (disk_of self.old))
            → IsDurable (D.image (disk_of self.old)) (D.crash_states (disk_of self.old)) → (marks : List ℕ) (home : ℕ → List ℕ)
            → RecoversTo (total_of self.old) (D.image (disk_of self.old)) marks home
            → CrashesLeaveOnly D.moment D.crash_states_since (disk_of self.old) (disk_of self.new) (λ c. RecoversTo (total_of self.old) c marks home) }
        ensures kept { IsTrue (D.is_known (disk_of self.old)) → IsTrue (D.knows_crashes (disk_of self.old))
            → OnOk result (IsDurable (D.image (disk_of self.new)) (D.crash_states (disk_of self.new))) }
        ensures unwritten { OnBadHeader result
            (CrashesLeaveOnly D.moment D.crash_states_since (disk_of self.old) (disk_of self.new) (D.crash_states (disk_of self.old))) }
        ensures cleared { OnOk result (staged_of self.new ≡ []) }
        ensures pages { HasPages D.size_of self.new }
        ensures total { total_of self.new ≡ total_of self.old }
        ensures told { StaysKnown D.is_known D.knows_crashes (disk_of self.old) (disk_of self.new) }
        ensures fault { CountsRecoverFault result (D.faults (disk_of self.old)) (D.faults (disk_of self.new)) }
        ensures name { self.new.disk.ghost_name ≡ self.old.disk.ghost_name }
    {
        recover_staged(self.disk, &mut self.staged)
    }

    /// Page n of the disk, whatever is staged. n is below the number of pages. One device call, straight into the
    /// caller's page. `DiskFault` comes only if the disk counted a fault in this call.
    pub fn read_page(&mut self, n: u32, into: &mut [u8; PAGE_SIZE]) -> Result<(), DiskFault>
        requires pages { HasPages D.size_of self.old }
        requires within { n < total_of self.old }
        ensures data { IsTrue (D.is_known (disk_of self.old)) → OnOk result (into.new ≡ page (D.image (disk_of self.old)) n) }
        ensures quiet { D.quiet (disk_of self.old) (disk_of self.new) }
        ensures image { IsTrue (D.is_known (disk_of self.old)) → D.image (disk_of self.new) ≡ D.image (disk_of self.old) }
        ensures reads { IsTrue (D.is_known (disk_of self.old)) → D.reads (disk_of self.new) ≡ next_count (D.reads (disk_of self.old)) }
        ensures staged { (staged_of self.new ≡ staged_of self.old) × (total_of self.new ≡ total_of self.old) }
        ensures pages { HasPages D.size_of self.new }
        ensures told { StaysKnown D.is_known D.knows_crashes (disk_of self.old) (disk_of self.new) }
        ensures fault { CountsError result (D.faults (disk_of self.old)) (D.faults (disk_of self.new)) }
        ensures name { self.new.disk.ghost_name ≡ self.old.disk.ghost_name }
    {
        read_page(self.disk, n, into)
    }

    /// Stages a page: it replaces the one with its number, or is added. n is 1 to 3, or from 85 on below the number of
    /// pages. `TooMany` comes exactly if 80 pages are staged and n is another; nothing changes then. Pages that come in
    /// ascending order of their numbers are copied once.
    pub fn stage(&mut self, n: u32, page: &[u8; PAGE_SIZE]) -> Result<(), StageError>
        requires home { IsHome (total_of self.old) n }
        ensures stages { Stages result (staged_of self.old) n page.now (staged_of self.new) }
        ensures some { OnOk result (0 < length (staged_of self.new)) }
        ensures few { length (staged_of self.new) ≤ CHANGE_LIMIT }
        ensures total { total_of self.new ≡ total_of self.old }
        ensures disk { disk_of self.new ≡ disk_of self.old }
        ensures name { self.new.disk.ghost_name ≡ self.old.disk.ghost_name }
    {
        self.staged.stage(n, page)
    }

    /// The staged page of this number, of 512 bytes, or None if there is none. No device call is made and
    /// nothing is copied; the number is found by bisection.
    pub fn staged_page(&self, n: u32) -> Option<&[u8]>
        ensures page { MatchOption result (lookup (λ m. m == n) (staged_of self.now) ≡ None)
            (λ page. lookup (λ m. m == n) (staged_of self.now) ≡ Some page.now) }
        ensures whole { IfSome result (λ page. length page.now ≡ PAGE_SIZE) }
    {
        self.staged.page(n)
    }

    /// Drops all staged pages. The disk stays as it is.
    pub fn clear(&mut self)
        ensures none { staged_of self.new ≡ [] }
        ensures total { total_of self.new ≡ total_of self.old }
        ensures disk { disk_of self.new ≡ disk_of self.old }
        ensures name { self.new.disk.ghost_name ≡ self.old.disk.ghost_name }
    {
        self.staged.clear();
    }

    /// Writes the staged pages, at least one, into the journal, and opens its gate: from Ok on the change
    /// has happened.
    ///
    /// If the gate was closed and nothing was pending, a crash during the call leaves an image that stands for the
    /// pages without the change or with all of it. `DiskFault` comes only if the disk counted a fault in this call;
    /// open the file again then. No page that a change may replace reads as other bytes, whatever the call answers. Four
    /// device calls, and all pages in one of them.
    pub fn commit(&mut self) -> Result<(), DiskFault>
        requires pages { HasPages D.size_of self.old }
        requires some { 0 < length (staged_of self.old) }
        ensures commits { IsTrue (D.is_known (disk_of self.old))
            → OnOk result (Commits (total_of self.old) (staged_of self.old) (D.image (disk_of self.old)) (D.image (disk_of self.new))) }
        ensures any_moment { IsTrue (D.is_known (disk_of self.old)) → IsTrue (D.knows_crashes (disk_of self.old))
            → IsDurable (D.image (disk_of self.old)) (D.crash_states (disk_of self.old)) → (marks : List ℕ) (home : ℕ → List ℕ)
            → RecoversTo (total_of self.old) (D.image (disk_of self.old)) marks home → has_open_gate (D.image (disk_of self.old)) ≡ false
            → CrashesLeaveOnly D.moment D.crash_states_since (disk_of self.old) (disk_of self.new)
            (IsBeforeOrAfter (total_of self.old) (staged_of self.old) marks home) }
        ensures kept { IsTrue (D.is_known (disk_of self.old)) → IsTrue (D.knows_crashes (disk_of self.old))
            → OnOk result (IsDurable (D.image (disk_of self.new)) (D.crash_states (disk_of self.new))) }
        ensures others { IsTrue (D.is_known (disk_of self.old)) → (n : ℕ) → IsHome (total_of self.old) n
            → page (D.image (disk_of self.new)) n ≡ page (D.image (disk_of self.old)) n }
        ensures staged { (staged_of self.new ≡ staged_of self.old) × (total_of self.new ≡ total_of self.old) }
        ensures pages { HasPages D.size_of self.new }
        ensures reads { IsTrue (D.is_known (disk_of self.old)) → D.reads (disk_of self.new) ≡ D.reads (disk_of self.old) }
        ensures told { StaysKnown D.is_known D.knows_crashes (disk_of self.old) (disk_of self.new) }
        ensures fault { CountsError result (D.faults (disk_of self.old)) (D.faults (disk_of self.new)) }
        ensures name { self.new.disk.ghost_name ≡ self.old.disk.ghost_name }
    {
        commit_staged(self.disk, &mut self.staged)
    }

    /// Writes each staged page to its place, in ascending order, closes the gate, and drops the staged pages.
    ///
    /// It follows a commit that answered Ok. What the file stands for stays the same, whenever a crash comes.
    /// `DiskFault` comes only if the disk counted a fault in this call; open the file again then. A page that isn't
    /// staged reads as before, whatever the call answers. A device call for each page, and three more.
    pub fn settle(&mut self) -> Result<(), DiskFault>
        requires pages { HasPages D.size_of self.old }
        ensures settles { IsTrue (D.is_known (disk_of self.old)) → HoldsChange (staged_of self.old) (D.image (disk_of self.old))
            → OnOk result (IsRedone (total_of self.old) (D.image (disk_of self.old)) (D.image (disk_of self.new))) }
        ensures home { IsTrue (D.is_known (disk_of self.old)) → HoldsChange (staged_of self.old) (D.image (disk_of self.old))
            → (marks : List ℕ) (home : ℕ → List ℕ)
            → RecoversTo (total_of self.old) (D.image (disk_of self.old)) marks home
            → OnOk result (RecoversTo (total_of self.old) (D.image (disk_of self.new)) marks home) }
        ensures closed { IsTrue (D.is_known (disk_of self.old)) → OnOk result (gate (D.image (disk_of self.new)) ≡ CLOSED_GATE) }
        ensures any_moment { IsTrue (D.is_known (disk_of self.old)) → IsTrue (D.knows_crashes (disk_of self.old))
            → IsDurable (D.image (disk_of self.old)) (D.crash_states (disk_of self.old)) → HoldsChange (staged_of self.old) (D.image (disk_of self.old))
            → (marks : List ℕ) (home : ℕ → List ℕ) → RecoversTo (total_of self.old) (D.image (disk_of self.old)) marks home
            → CrashesLeaveOnly D.moment D.crash_states_since (disk_of self.old) (disk_of self.new) (λ c. RecoversTo (total_of self.old) c marks home) }
        ensures kept { IsTrue (D.is_known (disk_of self.old)) → IsTrue (D.knows_crashes (disk_of self.old))
            → OnOk result (IsDurable (D.image (disk_of self.new)) (D.crash_states (disk_of self.new))) }
        ensures others { IsTrue (D.is_known (disk_of self.old)) → (n : ℕ) → IsHome (total_of self.old) n
            → is_listed n (keys_of (staged_of self.old)) ≡ false
            → page (D.image (disk_of self.new)) n ≡ page (D.image (disk_of self.old)) n }
        ensures cleared { OnOk result (staged_of self.new ≡ []) }
        ensures total { total_of self.new ≡ total_of self.old }
        ensures pages { HasPages D.size_of self.new }
        ensures reads { IsTrue (D.is_known (disk_of self.old)) → D.reads (disk_of self.new) ≡ D.reads (disk_of self.old) }
        ensures told { StaysKnown D.is_known D.knows_crashes (disk_of self.old) (disk_of self.new) }
        ensures fault { CountsError result (D.faults (disk_of self.old)) (D.faults (disk_of self.new)) }
        ensures name { self.new.disk.ghost_name ≡ self.old.disk.ghost_name }
    {
        settle_staged(self.disk, &mut self.staged)
    }
}

/// What a file stands for survives its pages going home, as a contract: if the gate is open over a header in its
/// ranges, an image that differs at most within the pages that the header names stands for the same. The call does
/// nothing.
pub fn home_survives()
    ensures { (total : ℕ) (image other marks : List ℕ) (home : ℕ → List ℕ) → RecoversTo total image marks home → IsTrue (has_open_gate image)
        → DiffersWithin total (page_numbers (page image HEADER_PAGE)) image other → RecoversTo total other marks home }
{}

/// An image as a recovery leaves it stands for what it stood for, as a contract. The call does nothing.
pub fn home_is_redone()
    ensures { (total : ℕ) (old new marks : List ℕ) (home : ℕ → List ℕ) → IsRedone total old new → RecoversTo total old marks home
        → RecoversTo total new marks home }
{}

/// Staging a page adds at most one page to a change, and no number but its own, as a contract. The call
/// does nothing.
pub fn staging_joins_one()
    ensures { (entries : List (ℕ × List ℕ)) (n : ℕ) (page : List ℕ) → AddsOne n entries (with_page entries n page) }
{}

/// Over any pages, a staged page is at its number and changes no other, as a contract. The call does nothing.
pub fn staging_lays_one()
    ensures { (entries : List (ℕ × List ℕ)) (n : ℕ) (page : List ℕ) → OverlaysOne n page entries (with_page entries n page) }
{}
