//! Pages over a journal, with a pool of free ones.
ghost use Rattle.std.specs.Prelude.{◌≡◌, ◌==◌, ◌+◌, ◌*◌, ◌≤◌, [], List, ℕ, true, false, IsTrue, OnOk, IfOk, IfErr};
ghost use Rattle.std.specs.Map.{keys_of, lookup};
ghost use Rattle.spb_edge.specs.Calls.{StaysKnown};
ghost use Rattle.spb_edge.specs.Crash.{IsDurable, CrashesLeaveOnly};
ghost use Rattle.spb_edge.specs.Fault.{CountsError};
ghost use Rattle.page_laws.specs.Errors.{CountsFault};
ghost use Rattle.page_laws.specs.Pages.{is_among, risen, AreFree};
ghost use Rattle.free_list.specs.FreeNumbers.{is_within};
ghost use Rattle.redo_journal.specs.declared.layout.TheConstants.{PAGE_SIZE, FIRST_HOME};
ghost use Rattle.redo_journal.specs.Pages.{page};
ghost use Rattle.redo_journal.specs.Redo.{has_open_gate, RecoversTo, overlay};
ghost use Rattle.redo_journal.specs.Change.{IsBeforeOrAfter};
ghost use Rattle.redo_journal.specs.Journal.{disk_of, total_of, staged_of, HasPages};
ghost use Rattle.page_store.specs.PageStore.{PagesView, in_pool, has, page_at, base_free, unchanged, begun, abandoned, Ends, IsCalm, HasMemory, reads_after};

use crate::change::{end_change, get_page, put_page};
use free_list::FreeList;
use page_laws::{PAGE_SIZE, PageError, Pages};
use redo_journal::{DiskFault, Journal};
use spb_edge::{Disk, Memory};
use std::alloc::Global;
use std::marker::Model;

/// The pages of a file that a change may replace: 1 to 3, and those from 85 on. Some of the latter are
/// the pool.
///
/// What is put in a change is staged in the journal, and read from there until the change ends. All of the
/// memory is taken when it is made: the journal's room for 80 pages, and twice five bytes for each page
/// of the pool. It keeps the reference that the journal was made with, and hands it back by
/// [`into_inner`](PageStore::into_inner). Dropping it makes no device call.
#[derive(Drop)]
pub struct PageStore<'a, D: Disk> {
    journal: Journal<'a, D>,
    free: FreeList,
    // The free pages when the change began.
    kept: FreeList,
    is_open: bool,
    // Whether a page was put in the open change.
    has_put: bool,
    failed: bool,
    fetches: u64,
}

impl<'a, D: Disk> Model for PageStore<'a, D> {
    ghost use Rattle.redo_journal.specs.Journal.{disk_of, total_of, staged_of};
    ghost use Rattle.page_store.specs.PageStore.{PagesView, IsPageStore};

    ghost Value = { PagesView D };

    ghost view = { λ p. record {
      disk = disk_of p.journal;
      name = p.journal.disk.ghost_name;
      total = total_of p.journal;
      staged = staged_of p.journal;
      first = p.free.first;
      count = p.free.count;
      free = p.free.numbers;
      kept = p.kept.numbers;
      is_open = p.is_open;
      failed = p.failed;
      fetches = p.fetches;
    } };

    ghost invariant = { λ p. IsPageStore D.size_of p.journal p.free p.kept p.is_open p.has_put };
}

impl<'a, D: Disk> PageStore<'a, D> {
    /// The pages of a journal without a staged page. The pool is the `count` pages from `first` on, at least
    /// 85, within the journal's pages, and of them these are free. No device call is made.
    pub fn new(
        alloc: Global,
        journal: Journal<'a, D>,
        first: u32,
        count: u32,
        free: &[u32],
    ) -> Result<Self, Memory>
        requires pages { HasPages D.size_of journal }
        requires none { staged_of journal ≡ [] }
        requires pool { (FIRST_HOME ≤ first) × (first + count ≤ total_of journal) }
        requires free { AreFree (is_within first count) free.now }
        ensures { IfOk result (λ store.
            store ≡ unchanged (disk_of journal.entry) journal.entry.disk.ghost_name (total_of journal.entry) first count free.now) }
    {
        match PageStore::new_or_back(alloc, journal, first, count, free) {
            Ok(store) => Ok(store),
            Err(back) => {
                let (memory, _disk) = back;
                Err(memory)
            }
        }
    }

    /// As [`new`](PageStore::new), but if memory runs out it hands the journal's disk back, so that a caller's
    /// contract can still speak of it.
    pub fn new_or_back(
        alloc: Global,
        journal: Journal<'a, D>,
        first: u32,
        count: u32,
        free: &[u32],
    ) -> Result<Self, (Memory, &'a mut D)>
        requires pages { HasPages D.size_of journal }
        requires none { staged_of journal ≡ [] }
        requires pool { (FIRST_HOME ≤ first) × (first + count ≤ total_of journal) }
        requires free { AreFree (is_within first count) free.now }
        ensures store { IfOk result (λ store.
            store ≡ unchanged (disk_of journal.entry) journal.entry.disk.ghost_name (total_of journal.entry) first count free.now) }
        ensures back { IfErr result (λ back. (back.1.now ≡ disk_of journal.entry) × (back.1.ghost_name ≡ journal.entry.disk.ghost_name)) }
    {
        let now = match FreeList::new(alloc, first, count, free) {
            Ok(list) => list,
            Err(memory) => return Err((memory, journal.into_inner())),
        };
        let kept = match FreeList::new(alloc, first, count, free) {
            Ok(list) => list,
            Err(memory) => return Err((memory, journal.into_inner())),
        };
        Ok(PageStore {
            journal,
            free: now,
            kept,
            is_open: false,
            has_put: false,
            failed: false,
            fetches: 0,
        })
    }

    /// Hands back the reference that the journal was made with. No device call is made.
    pub fn into_inner(self) -> &'a mut D
        ensures name { result.ghost_name ≡ self.entry.name }
        ensures disk { result.now ≡ self.entry.disk }
        ensures size { D.size_of self.entry.disk ≡ PAGE_SIZE * self.entry.total }
    {
        let PageStore {
            journal,
            free: _,
            kept: _,
            is_open: _,
            has_put: _,
            failed: _,
            fetches: _,
        } = self;
        journal.into_inner()
    }

    /// Whether page `n` was put in the open change. It makes no device call, and takes time in proportion to the logarithm
    /// of the number of pages that were put.
    pub fn is_put(&self, n: u32) -> bool
        ensures { result ≡ is_among n (keys_of self.now.staged) }
    {
        self.has_put && self.journal.staged_page(n).is_some()
    }

    /// Counts a page that was asked for and is given from elsewhere, as by a cache.
    pub fn count_fetch(&mut self)
        ensures counted { self.new ≡ record self.old { fetches = risen self.old.fetches 1 } }
        ensures free { AreFree (in_pool self.new) self.new.free }
        ensures calm { IsCalm D.is_known D.reads D.quiet self.old self.new }
    {
        self.fetches = self.fetches.saturating_add(1);
    }

    /// Opens a change. It takes time in proportion to the pool, and no memory.
    pub fn begin(&mut self)
        requires closed { self.old.is_open ≡ false }
        ensures begun { self.new ≡ begun self.old }
        ensures none { self.new.staged ≡ [] }
        ensures free { AreFree (in_pool self.new) self.new.free }
        ensures calm { IsCalm D.is_known D.reads D.quiet self.old self.new }
    {
        self.kept.copy_from(&self.free);
        self.is_open = true;
    }

    /// Closes the open change, of which nothing stays: pages and free pages are as they were when it began. It takes
    /// time in proportion to the pool, and makes no device call.
    pub fn abandon(&mut self)
        requires open { self.old.is_open ≡ true }
        ensures abandoned { self.new ≡ abandoned self.old }
        ensures free { AreFree (in_pool self.new) self.new.free }
        ensures calm { IsCalm D.is_known D.reads D.quiet self.old self.new }
    {
        self.free.copy_from(&self.kept);
        self.journal.clear();
        self.is_open = false;
        self.has_put = false;
    }

    /// Closes the open change: what was put is committed and settled. If nothing was put, no device call is made.
    ///
    /// No earlier commit may have failed, and over a known disk the gate is closed. From Ok on the change has happened,
    /// and the gate is closed again. `DiskFault` comes only if the disk counted a fault in this call; whether the change
    /// has happened is then open, and the file is to be opened again. A crash during the call leaves an image that
    /// stands for the pages without the change or with all of it. A device call for each page that was put, and seven
    /// more.
    pub fn commit(&mut self) -> Result<(), DiskFault>
        requires open { self.old.is_open ≡ true }
        requires none_failed { self.old.failed ≡ false }
        requires closed { IsTrue (D.is_known self.old.disk) → has_open_gate (D.image self.old.disk) ≡ false }
        ensures any_moment { IsTrue (D.is_known self.old.disk) → IsTrue (D.knows_crashes self.old.disk)
            → IsDurable (D.image self.old.disk) (D.crash_states self.old.disk) → (marks : List ℕ) (home : ℕ → List ℕ)
            → RecoversTo self.old.total (D.image self.old.disk) marks home → has_open_gate (D.image self.old.disk) ≡ false
            → CrashesLeaveOnly D.moment D.crash_states_since self.old.disk self.new.disk (IsBeforeOrAfter self.old.total self.old.staged marks home) }
        ensures commits { IsTrue (D.is_known self.old.disk) → (marks : List ℕ) (home : ℕ → List ℕ)
            → RecoversTo self.old.total (D.image self.old.disk) marks home → has_open_gate (D.image self.old.disk) ≡ false
            → OnOk result (RecoversTo self.old.total (D.image self.new.disk) marks (overlay self.old.staged home)) }
        ensures closed { IsTrue (D.is_known self.old.disk) → OnOk result (has_open_gate (D.image self.new.disk) ≡ false) }
        ensures kept { IsTrue (D.is_known self.old.disk) → IsTrue (D.knows_crashes self.old.disk)
            → (self.old.staged ≡ [] → IsDurable (D.image self.old.disk) (D.crash_states self.old.disk))
            → OnOk result (IsDurable (D.image self.new.disk) (D.crash_states self.new.disk)) }
        ensures same { IsTrue (D.is_known self.old.disk)
            → OnOk result ((n : ℕ) → IsTrue (has self.old n) → page_at D.image self.new n ≡ page_at D.image self.old n) }
        // A page that wasn't put reads as before, whatever the answer.
        ensures others { IsTrue (D.is_known self.old.disk) → (n : ℕ) → IsTrue (has self.old n) → is_among n (keys_of self.old.staged) ≡ false
            → page (D.image self.new.disk) n ≡ page (D.image self.old.disk) n }
        ensures silent { self.old.staged ≡ [] → (self.new.disk ≡ self.old.disk) × (result ≡ Ok tt) }
        ensures ends { Ends result self.old self.new }
        ensures map { (has self.new ≡ has self.old) × (in_pool self.new ≡ in_pool self.old) }
        ensures free { AreFree (in_pool self.new) self.new.free }
        ensures size { D.size_of self.new.disk ≡ PAGE_SIZE * self.new.total }
        ensures reads { IsTrue (D.is_known self.old.disk) → D.reads self.new.disk ≡ D.reads self.old.disk }
        ensures told { StaysKnown D.is_known D.knows_crashes self.old.disk self.new.disk }
        ensures fault { CountsError result (D.faults self.old.disk) (D.faults self.new.disk) }
    {
        let done = end_change(&mut self.journal, self.has_put);
        self.is_open = false;
        self.has_put = false;
        self.failed = done.is_err();
        done
    }
}

/// The pages to which an abandoned change goes back are the same after a calm stretch over a known disk, as a
/// contract. The call does nothing.
pub fn calm_keeps_pages<D: Disk>()
    ensures { (old new : PagesView D) → IsTrue (D.is_known old.disk) → IsCalm D.is_known D.reads D.quiet old new
        → page (D.image new.disk) ≡ page (D.image old.disk) }
{}

/// An abandoned change goes back to where it began, as a contract: if a calm stretch leads from pages over which no change
/// is open to an open change, the free pages are those of before once it is abandoned, and so over a known disk is
/// each page. The call does nothing.
pub fn abandon_goes_back<D: Disk>()
    ensures { (start mid : PagesView D) → start.is_open ≡ false → start.staged ≡ [] → mid.is_open ≡ true
        → IsCalm D.is_known D.reads D.quiet start mid → ((abandoned mid).free ≡ start.free)
        × (IsTrue (D.is_known start.disk) → page_at D.image (abandoned mid) ≡ page_at D.image start) }
{}

impl<'a, D: Disk> Pages for PageStore<'a, D> {
    ghost use Rattle.std.specs.Prelude.{◌≡◌, ◌==◌, ◌||◌, ◌<◌, ◌∷◌, ℕ, true, IsTrue, OnOk, length};
    ghost use Rattle.std.specs.Map.{keys_of, lookup};
    ghost use Rattle.std.specs.List.Sorted.{IsPermutation};
    ghost use Rattle.page_laws.specs.Errors.{CountsFault};
    ghost use Rattle.page_laws.specs.Pages.{is_among, is_live, risen, AreFree, HasRoom, JoinsAtMost};
    ghost use Rattle.page_store.specs.PageStore as words;
    ghost use Rattle.page_store.specs.PageStore.{IsCalm, HasMemory, reads_after};

    ghost is_known = { λ p. D.is_known p.disk };

    ghost has = { words.has };

    ghost page_at = { words.page_at D.image };

    ghost in_pool = { words.in_pool };

    ghost free = { λ p. p.free };

    ghost is_open = { λ p. p.is_open };

    ghost put_pages = { λ p. keys_of p.staged };

    ghost fetches = { λ p. p.fetches };

    ghost faults = { λ p. D.faults p.disk };

    ghost calm = { IsCalm D.is_known D.reads D.quiet };

    ghost pool_is_there = { words.pool_is_there };

    ghost calm_same = { λ p. words.calm_same D.is_known D.reads D.quiet p (D.quiet_same p.disk) };

    ghost calm_chains = { λ old mid new first second.
        words.calm_chains D.is_known D.reads D.quiet old mid new (D.quiet_chains old.disk mid.disk new.disk) first second };

    fn get(&mut self, n: u32, into: &mut [u8; PAGE_SIZE]) -> Result<(), PageError>
        requires there { IsTrue (words.has self.old n) }
        ensures data { IsTrue (D.is_known self.old.disk) → OnOk result (into.new ≡ words.page_at D.image self.old n) }
        ensures fetches { self.new.fetches ≡ risen self.old.fetches 1 }
        ensures told { D.is_known self.new.disk ≡ D.is_known self.old.disk }
        ensures pages { IsTrue (D.is_known self.old.disk) → words.page_at D.image self.new ≡ words.page_at D.image self.old }
        ensures map { (words.has self.new ≡ words.has self.old) × (words.in_pool self.new ≡ words.in_pool self.old) }
        ensures free { (self.new.free ≡ self.old.free) × AreFree (words.in_pool self.new) self.new.free }
        ensures open { (self.new.is_open ≡ self.old.is_open) × (keys_of self.new.staged ≡ keys_of self.old.staged) }
        ensures fault { CountsFault result (D.faults self.old.disk) (D.faults self.new.disk) }
        ensures calm { IsCalm D.is_known D.reads D.quiet self.old self.new }
        ensures memory { HasMemory result }
        // The disk is read once, and not at all for a page that was put in the open change.
        ensures reads { IsTrue (D.is_known self.old.disk)
            → D.reads self.new.disk ≡ reads_after (lookup (λ m. m == n) self.old.staged) (D.reads self.old.disk) }
        ensures changed { self.new ≡ record self.old { disk = self.new.disk; fetches = self.new.fetches } }
    {
        self.fetches = self.fetches.saturating_add(1);
        get_page(&mut self.journal, n, into)
    }

    fn put(&mut self, n: u32, page: &[u8; PAGE_SIZE])
        requires open { self.old.is_open ≡ true }
        requires there { IsTrue (words.has self.old n) }
        requires room { HasRoom n (keys_of self.old.staged) }
        ensures here { words.page_at D.image self.new n ≡ page.now }
        ensures others { (m : ℕ) → (m ≡ n → ⊥) → words.page_at D.image self.new m ≡ words.page_at D.image self.old m }
        ensures put { JoinsAtMost n (keys_of self.old.staged) (keys_of self.new.staged) }
        ensures told { D.is_known self.new.disk ≡ D.is_known self.old.disk }
        ensures map { (words.has self.new ≡ words.has self.old) × (words.in_pool self.new ≡ words.in_pool self.old) }
        ensures free { (self.new.free ≡ self.old.free) × AreFree (words.in_pool self.new) self.new.free }
        ensures open { self.new.is_open ≡ self.old.is_open }
        ensures counts { (self.new.fetches ≡ self.old.fetches) × (D.faults self.new.disk ≡ D.faults self.old.disk) }
        ensures calm { IsCalm D.is_known D.reads D.quiet self.old self.new }
        // The page is then one of those that were put, and nothing else changes.
        ensures joins { (m : ℕ) → is_among m (keys_of self.new.staged) ≡ (n == m || is_among m (keys_of self.old.staged)) }
        ensures changed { self.new ≡ record self.old { staged = self.new.staged } }
    {
        put_page(&mut self.journal, n, page);
        self.has_put = true;
    }

    fn take_page(&mut self) -> u32
        requires open { self.old.is_open ≡ true }
        requires some { 0 < length self.old.free }
        ensures taken { IsPermutation self.old.free (result ∷ self.new.free) }
        ensures free { AreFree (words.in_pool self.old) self.old.free × AreFree (words.in_pool self.new) self.new.free }
        ensures told { D.is_known self.new.disk ≡ D.is_known self.old.disk }
        ensures pages { words.page_at D.image self.new ≡ words.page_at D.image self.old }
        ensures map { (words.has self.new ≡ words.has self.old) × (words.in_pool self.new ≡ words.in_pool self.old) }
        ensures open { (self.new.is_open ≡ self.old.is_open) × (keys_of self.new.staged ≡ keys_of self.old.staged) }
        ensures counts { (self.new.fetches ≡ self.old.fetches) × (D.faults self.new.disk ≡ D.faults self.old.disk) }
        ensures calm { IsCalm D.is_known D.reads D.quiet self.old self.new }
        ensures changed { self.new ≡ record self.old { free = self.new.free } }
    {
        self.free.take()
    }

    fn give_page(&mut self, n: u32)
        requires open { self.old.is_open ≡ true }
        requires live { IsTrue (is_live (words.in_pool self.old) self.old.free n) }
        ensures given { IsPermutation self.new.free (n ∷ self.old.free) }
        ensures free { AreFree (words.in_pool self.new) self.new.free }
        ensures told { D.is_known self.new.disk ≡ D.is_known self.old.disk }
        ensures pages { words.page_at D.image self.new ≡ words.page_at D.image self.old }
        ensures map { (words.has self.new ≡ words.has self.old) × (words.in_pool self.new ≡ words.in_pool self.old) }
        ensures open { (self.new.is_open ≡ self.old.is_open) × (keys_of self.new.staged ≡ keys_of self.old.staged) }
        ensures counts { (self.new.fetches ≡ self.old.fetches) × (D.faults self.new.disk ≡ D.faults self.old.disk) }
        ensures calm { IsCalm D.is_known D.reads D.quiet self.old self.new }
        ensures changed { self.new ≡ record self.old { free = self.new.free } }
    {
        self.free.give(n);
    }

    fn is_live(&self, n: u32) -> bool {
        self.free.is_live(n)
    }

    fn free_pages(&self) -> u32 {
        self.free.len()
    }
}

#[cfg(test)]
mod tests;
