//! A store of pages with a cache before it.
ghost use Rattle.std.specs.Prelude.{◌≡◌, ◌*◌, ◌≤◌, [], List, ℕ, true, false, IsTrue, OnOk, IfOk, IfErr};
ghost use Rattle.std.specs.Map.{keys_of};
ghost use Rattle.spb_edge.specs.Calls.{StaysKnown};
ghost use Rattle.spb_edge.specs.Crash.{IsDurable, CrashesLeaveOnly};
ghost use Rattle.spb_edge.specs.Fault.{CountsError};
ghost use Rattle.page_laws.specs.Errors.{CountsFault};
ghost use Rattle.page_laws.specs.Pages.{risen, count_after, is_among, AreFree};
ghost use Rattle.redo_journal.specs.declared.layout.TheConstants.{PAGE_SIZE};
ghost use Rattle.redo_journal.specs.Pages.{page};
ghost use Rattle.redo_journal.specs.Redo.{has_open_gate, RecoversTo, overlay};
ghost use Rattle.redo_journal.specs.Change.{IsBeforeOrAfter};
ghost use Rattle.page_store.specs.PageStore.{PagesView, in_pool, has, page_at, begun, abandoned, Ends, IsCalm, HasMemory};
ghost use Rattle.page_cache.specs.declared.cached_pages.TheConstants.{MOST_ROOM};
ghost use Rattle.page_cache.specs.Misses.{is_miss, misses_of, after_put, after_change, Gets};
ghost use Rattle.page_cache.specs.Cached.{recent_of, list_of, uncached, IsCache};

use crate::gets::get_page;
use crate::puts::put_page;
use lru::LruCache;
use page_laws::{PAGE_SIZE, PageError, Pages};
use page_store::PageStore;
use redo_journal::DiskFault;
use spb_edge::{Disk, Memory};
use std::alloc::Global;
use std::marker::Model;
use std::num::NonZeroUsize;

/// How many pages a cache may have room for.
pub const MOST_ROOM: u32 = 4096;

/// The pages of a [`PageStore`], of which those that were read lately are kept in memory.
///
/// It is the same pages, with the same calls. A page that was put in the open change is read from the change, as the
/// store does, and isn't cached. Of the others, so many as there is room for are cached: the disk is read once for a
/// page that isn't among the most recent ones, and not at all for one that is. It hands the disk's reference back by
/// [`into_inner`](CachedPages::into_inner). Dropping it makes no device call.
#[derive(Drop)]
pub struct CachedPages<'a, D: Disk> {
    store: PageStore<'a, D>,
    cache: LruCache<u32, [u8; PAGE_SIZE]>,
}

impl<'a, D: Disk> Model for CachedPages<'a, D> {
    ghost use Rattle.std.specs.Map.{keys_of};
    ghost use Rattle.page_cache.specs.Cached.{CachedView, IsCache};

    ghost Value = { CachedView D };

    ghost view = { λ c. record { pages = c.store; recent = keys_of c.cache.entries; room = c.cache.cap } };

    ghost invariant = { λ c. IsCache D.is_known D.image c.store c.cache };
}

impl<'a, D: Disk> CachedPages<'a, D> {
    /// The store's pages, of which at most `room` are cached, 1 to 4,096 of them. None is yet. The cache's table is made
    /// here; each page takes memory of its own when it is first cached. No device call is made.
    pub fn new(alloc: Global, store: PageStore<'a, D>, room: u32) -> Result<Self, Memory>
        requires room { (1 ≤ room) × (room ≤ MOST_ROOM) }
        ensures { IfOk result (λ pages. pages ≡ uncached store.entry room) }
    {
        match CachedPages::new_or_back(alloc, store, room) {
            Ok(pages) => Ok(pages),
            Err(back) => {
                let (memory, _disk) = back;
                Err(memory)
            }
        }
    }

    /// As [`new`](CachedPages::new), but if memory runs out it hands the store's disk back, so that a caller's contract
    /// can still speak of it.
    pub fn new_or_back(
        alloc: Global,
        store: PageStore<'a, D>,
        room: u32,
    ) -> Result<Self, (Memory, &'a mut D)>
        requires room { (1 ≤ room) × (room ≤ MOST_ROOM) }
        ensures pages { IfOk result (λ pages. pages ≡ uncached store.entry room) }
        ensures back { IfErr result (λ back. (back.1.now ≡ store.entry.disk) × (back.1.ghost_name ≡ store.entry.name)) }
    {
        let Some(cap) = NonZeroUsize::new(room as usize) else {
            unreachable!()
        };
        match LruCache::new(alloc, cap) {
            Ok(cache) => Ok(CachedPages { store, cache }),
            Err(_) => Err((Memory, store.into_inner())),
        }
    }

    /// Hands back the reference that the store was made with. No device call is made.
    pub fn into_inner(self) -> &'a mut D
        ensures name { result.ghost_name ≡ self.entry.pages.name }
        ensures disk { result.now ≡ self.entry.pages.disk }
        ensures size { D.size_of self.entry.pages.disk ≡ PAGE_SIZE * self.entry.pages.total }
    {
        let CachedPages { store, cache: _ } = self;
        store.into_inner()
    }

    /// Opens a change. It takes time in proportion to the pool, and no memory.
    pub fn begin(&mut self)
        requires closed { self.old.pages.is_open ≡ false }
        ensures begun { self.new ≡ record self.old { pages = begun self.old.pages } }
        ensures none { self.new.pages.staged ≡ [] }
        ensures free { AreFree (in_pool self.new.pages) self.new.pages.free }
        ensures calm { IsCalm D.is_known D.reads D.quiet self.old.pages self.new.pages }
    {
        self.store.begin();
    }

    /// Closes the open change, of which nothing stays: pages and free pages are as they were when it began, and no page
    /// counts as put. What is cached stays. It takes time in proportion to the pool, and makes no device call.
    pub fn abandon(&mut self)
        requires open { self.old.pages.is_open ≡ true }
        ensures abandoned { self.new ≡ record self.old { pages = abandoned self.old.pages } }
        ensures list { list_of self.new ≡ after_change (list_of self.old) }
        ensures free { AreFree (in_pool self.new.pages) self.new.pages.free }
        ensures calm { IsCalm D.is_known D.reads D.quiet self.old.pages self.new.pages }
    {
        self.store.abandon();
    }

    /// Closes the open change as [`PageStore::commit`] does: what was put is committed and settled. Whatever it answers,
    /// no page counts as put afterwards, what is cached stays, and the disk isn't read.
    ///
    /// No earlier commit may have failed, and over a known disk the gate is closed. From Ok on the change has happened,
    /// and the gate is closed again. `DiskFault` comes only if the disk counted a fault in this call; whether the change
    /// has happened is then open, and the file is to be opened again. A crash during the call leaves an image that
    /// stands for the pages without the change or with all of it.
    pub fn commit(&mut self) -> Result<(), DiskFault>
        requires open { self.old.pages.is_open ≡ true }
        requires none_failed { self.old.pages.failed ≡ false }
        requires closed { IsTrue (D.is_known self.old.pages.disk) → has_open_gate (D.image self.old.pages.disk) ≡ false }
        ensures any_moment { IsTrue (D.is_known self.old.pages.disk) → IsTrue (D.knows_crashes self.old.pages.disk)
            → IsDurable (D.image self.old.pages.disk) (D.crash_states self.old.pages.disk) → (marks : List ℕ) (home : ℕ → List ℕ)
            → RecoversTo self.old.pages.total (D.image self.old.pages.disk) marks home → has_open_gate (D.image self.old.pages.disk) ≡ false
            → CrashesLeaveOnly D.moment D.crash_states_since self.old.pages.disk self.new.pages.disk
            (IsBeforeOrAfter self.old.pages.total self.old.pages.staged marks home) }
        ensures commits { IsTrue (D.is_known self.old.pages.disk) → (marks : List ℕ) (home : ℕ → List ℕ)
            → RecoversTo self.old.pages.total (D.image self.old.pages.disk) marks home → has_open_gate (D.image self.old.pages.disk) ≡ false
            → OnOk result (RecoversTo self.old.pages.total (D.image self.new.pages.disk) marks (overlay self.old.pages.staged home)) }
        ensures closed { IsTrue (D.is_known self.old.pages.disk) → OnOk result (has_open_gate (D.image self.new.pages.disk) ≡ false) }
        ensures kept { IsTrue (D.is_known self.old.pages.disk) → IsTrue (D.knows_crashes self.old.pages.disk)
            → (self.old.pages.staged ≡ [] → IsDurable (D.image self.old.pages.disk) (D.crash_states self.old.pages.disk))
            → OnOk result (IsDurable (D.image self.new.pages.disk) (D.crash_states self.new.pages.disk)) }
        ensures same { IsTrue (D.is_known self.old.pages.disk)
            → OnOk result ((n : ℕ) → IsTrue (has self.old.pages n) → page_at D.image self.new.pages n ≡ page_at D.image self.old.pages n) }
        ensures others { IsTrue (D.is_known self.old.pages.disk) → (n : ℕ) → IsTrue (has self.old.pages n)
            → is_among n (keys_of self.old.pages.staged) ≡ false
            → page (D.image self.new.pages.disk) n ≡ page (D.image self.old.pages.disk) n }
        ensures silent { self.old.pages.staged ≡ [] → (self.new.pages.disk ≡ self.old.pages.disk) × (result ≡ Ok tt) }
        ensures ends { Ends result self.old.pages self.new.pages }
        ensures list { (list_of self.new ≡ after_change (list_of self.old)) × (self.new.room ≡ self.old.room) }
        ensures map { (has self.new.pages ≡ has self.old.pages) × (in_pool self.new.pages ≡ in_pool self.old.pages) }
        ensures free { AreFree (in_pool self.new.pages) self.new.pages.free }
        ensures size { D.size_of self.new.pages.disk ≡ PAGE_SIZE * self.new.pages.total }
        ensures reads { IsTrue (D.is_known self.old.pages.disk) → D.reads self.new.pages.disk ≡ D.reads self.old.pages.disk }
        ensures told { StaysKnown D.is_known D.knows_crashes self.old.pages.disk self.new.pages.disk }
        ensures fault { CountsError result (D.faults self.old.pages.disk) (D.faults self.new.pages.disk) }
    {
        self.store.commit()
    }
}

impl<'a, D: Disk> Pages for CachedPages<'a, D> {
    ghost use Rattle.std.specs.Prelude.{◌≡◌, ◌==◌, ◌||◌, ◌<◌, ◌∷◌, ℕ, true, false, IsTrue, OnOk, Ok, length};
    ghost use Rattle.std.specs.Map.{keys_of};
    ghost use Rattle.std.specs.List.Sorted.{IsPermutation};
    ghost use Rattle.page_laws.specs.Errors.{CountsFault};
    ghost use Rattle.page_laws.specs.Pages.{is_among, is_live, risen, count_after, AreFree, HasRoom, JoinsAtMost};
    ghost use Rattle.page_store.specs.PageStore as words;
    ghost use Rattle.page_store.specs.PageStore.{IsCalm, HasMemory};
    ghost use Rattle.page_cache.specs.Misses.{is_miss, misses_of, after_put, Gets};
    ghost use Rattle.page_cache.specs.Cached.{list_of};

    ghost is_known = { λ c. D.is_known c.pages.disk };

    ghost has = { λ c. words.has c.pages };

    ghost page_at = { λ c. words.page_at D.image c.pages };

    ghost in_pool = { λ c. words.in_pool c.pages };

    ghost free = { λ c. c.pages.free };

    ghost is_open = { λ c. c.pages.is_open };

    ghost put_pages = { λ c. keys_of c.pages.staged };

    ghost fetches = { λ c. c.pages.fetches };

    ghost faults = { λ c. D.faults c.pages.disk };

    ghost calm = { λ old new. IsCalm D.is_known D.reads D.quiet old.pages new.pages };

    ghost pool_is_there = { λ c. words.pool_is_there c.pages };

    ghost calm_same = { λ c. words.calm_same D.is_known D.reads D.quiet c.pages (D.quiet_same c.pages.disk) };

    ghost calm_chains = { λ old mid new first second. words.calm_chains D.is_known D.reads D.quiet old.pages mid.pages new.pages
        (D.quiet_chains old.pages.disk mid.pages.disk new.pages.disk) first second };

    /// Fills `into` with page `n`. It counts as a fetch, whatever it answers.
    ///
    /// A page that was put in the open change comes from there, and one that is cached from the cache, which makes it the
    /// most recent. Any other is read by one device call, and cached. `Memory` comes only then, if there is no memory
    /// for it in the cache. A refused call leaves the list of the most recent pages as it was.
    fn get(&mut self, n: u32, into: &mut [u8; PAGE_SIZE]) -> Result<(), PageError>
        requires there { IsTrue (words.has self.old.pages n) }
        ensures data { IsTrue (D.is_known self.old.pages.disk) → OnOk result (into.new ≡ words.page_at D.image self.old.pages n) }
        ensures fetches { self.new.pages.fetches ≡ risen self.old.pages.fetches 1 }
        ensures told { D.is_known self.new.pages.disk ≡ D.is_known self.old.pages.disk }
        ensures pages { IsTrue (D.is_known self.old.pages.disk) → words.page_at D.image self.new.pages ≡ words.page_at D.image self.old.pages }
        ensures map { (words.has self.new.pages ≡ words.has self.old.pages) × (words.in_pool self.new.pages ≡ words.in_pool self.old.pages) }
        ensures free { (self.new.pages.free ≡ self.old.pages.free) × AreFree (words.in_pool self.new.pages) self.new.pages.free }
        ensures open { (self.new.pages.is_open ≡ self.old.pages.is_open) × (keys_of self.new.pages.staged ≡ keys_of self.old.pages.staged) }
        ensures fault { CountsFault result (D.faults self.old.pages.disk) (D.faults self.new.pages.disk) }
        ensures calm { IsCalm D.is_known D.reads D.quiet self.old.pages self.new.pages }
        ensures list { Gets self.old.room n result (list_of self.old) (list_of self.new) }
        ensures reads { IsTrue (D.is_known self.old.pages.disk)
            → D.reads self.new.pages.disk ≡ count_after (D.reads self.old.pages.disk) (misses_of n (list_of self.old)) }
        ensures hit { IsTrue (is_among n self.old.recent) → (self.new.pages.disk ≡ self.old.pages.disk) × (result ≡ Ok tt) }
        ensures memory { is_miss n (list_of self.old) ≡ false → HasMemory result }
        ensures changed { (self.new.pages ≡ record self.old.pages { disk = self.new.pages.disk; fetches = self.new.pages.fetches })
            × (self.new.room ≡ self.old.room) }
    {
        get_page(&mut self.store, &mut self.cache, n, into)
    }

    /// Makes `page` page `n`, in the open change, and takes it out of the cache. It takes no memory.
    fn put(&mut self, n: u32, page: &[u8; PAGE_SIZE])
        requires open { self.old.pages.is_open ≡ true }
        requires there { IsTrue (words.has self.old.pages n) }
        requires room { HasRoom n (keys_of self.old.pages.staged) }
        ensures here { words.page_at D.image self.new.pages n ≡ page.now }
        ensures others { (m : ℕ) → (m ≡ n → ⊥) → words.page_at D.image self.new.pages m ≡ words.page_at D.image self.old.pages m }
        ensures put { JoinsAtMost n (keys_of self.old.pages.staged) (keys_of self.new.pages.staged) }
        ensures told { D.is_known self.new.pages.disk ≡ D.is_known self.old.pages.disk }
        ensures map { (words.has self.new.pages ≡ words.has self.old.pages) × (words.in_pool self.new.pages ≡ words.in_pool self.old.pages) }
        ensures free { (self.new.pages.free ≡ self.old.pages.free) × AreFree (words.in_pool self.new.pages) self.new.pages.free }
        ensures open { self.new.pages.is_open ≡ self.old.pages.is_open }
        ensures counts { (self.new.pages.fetches ≡ self.old.pages.fetches) × (D.faults self.new.pages.disk ≡ D.faults self.old.pages.disk) }
        ensures calm { IsCalm D.is_known D.reads D.quiet self.old.pages self.new.pages }
        ensures list { list_of self.new ≡ after_put n (list_of self.old) }
        ensures changed { (self.new.pages ≡ record self.old.pages { staged = self.new.pages.staged }) × (self.new.room ≡ self.old.room) }
    {
        put_page(&mut self.store, &mut self.cache, n, page);
    }

    fn take_page(&mut self) -> u32
        requires open { self.old.pages.is_open ≡ true }
        requires some { 0 < length self.old.pages.free }
        ensures taken { IsPermutation self.old.pages.free (result ∷ self.new.pages.free) }
        ensures free { AreFree (words.in_pool self.old.pages) self.old.pages.free × AreFree (words.in_pool self.new.pages) self.new.pages.free }
        ensures told { D.is_known self.new.pages.disk ≡ D.is_known self.old.pages.disk }
        ensures pages { words.page_at D.image self.new.pages ≡ words.page_at D.image self.old.pages }
        ensures map { (words.has self.new.pages ≡ words.has self.old.pages) × (words.in_pool self.new.pages ≡ words.in_pool self.old.pages) }
        ensures open { (self.new.pages.is_open ≡ self.old.pages.is_open) × (keys_of self.new.pages.staged ≡ keys_of self.old.pages.staged) }
        ensures counts { (self.new.pages.fetches ≡ self.old.pages.fetches) × (D.faults self.new.pages.disk ≡ D.faults self.old.pages.disk) }
        ensures calm { IsCalm D.is_known D.reads D.quiet self.old.pages self.new.pages }
        ensures changed { self.new ≡ record self.old { pages = record self.old.pages { free = self.new.pages.free } } }
    {
        self.store.take_page()
    }

    fn give_page(&mut self, n: u32)
        requires open { self.old.pages.is_open ≡ true }
        requires live { IsTrue (is_live (words.in_pool self.old.pages) self.old.pages.free n) }
        ensures given { IsPermutation self.new.pages.free (n ∷ self.old.pages.free) }
        ensures free { AreFree (words.in_pool self.new.pages) self.new.pages.free }
        ensures told { D.is_known self.new.pages.disk ≡ D.is_known self.old.pages.disk }
        ensures pages { words.page_at D.image self.new.pages ≡ words.page_at D.image self.old.pages }
        ensures map { (words.has self.new.pages ≡ words.has self.old.pages) × (words.in_pool self.new.pages ≡ words.in_pool self.old.pages) }
        ensures open { (self.new.pages.is_open ≡ self.old.pages.is_open) × (keys_of self.new.pages.staged ≡ keys_of self.old.pages.staged) }
        ensures counts { (self.new.pages.fetches ≡ self.old.pages.fetches) × (D.faults self.new.pages.disk ≡ D.faults self.old.pages.disk) }
        ensures calm { IsCalm D.is_known D.reads D.quiet self.old.pages self.new.pages }
        ensures changed { self.new ≡ record self.old { pages = record self.old.pages { free = self.new.pages.free } } }
    {
        self.store.give_page(n);
    }

    fn is_live(&self, n: u32) -> bool {
        self.store.is_live(n)
    }

    fn free_pages(&self) -> u32 {
        self.store.free_pages()
    }
}
