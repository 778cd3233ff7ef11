//! Pages of which nothing is said.
ghost use Rattle.std.specs.Prelude.{◌≡◌, ◌<◌, IfOk, length};

use free_list::FreeList;
use page_laws::{PAGE_SIZE, PageError, Pages};
use spb_edge::Memory;
use std::alloc::Global;
use std::marker::Model;

/// Pages in memory that tell contracts nothing of what they hold, so that a tree on them may be asked
/// for anything. A change is always open, and no page counts as put in it. Whether a page is live is
/// answered in constant time.
#[derive(Drop)]
pub(crate) struct Untold {
    pages: Vec<[u8; PAGE_SIZE]>,
    free: FreeList,
    fetches: u64,
}

impl Model for Untold {
    ghost use Rattle.tree_bench.specs.Untold.{Held, IsHeld};

    ghost Value = { Held };

    ghost view = { λ p. record { pages = p.pages.items; pool = p.free; fetches = p.fetches } };

    ghost invariant = { λ p. IsHeld (record { pages = p.pages.items; pool = p.free; fetches = p.fetches }) };
}

impl Untold {
    /// Pages for a tree of so many entries, all of them free.
    pub(crate) fn for_entries(alloc: Global, entries: u32) -> Result<Untold, Memory> {
        Untold::new(alloc, entries / 10 + 100)
    }

    /// So many pages behind page 0, which isn't there, all of them free.
    fn new(alloc: Global, count: u32) -> Result<Untold, Memory>
        requires { count < 4294967295 }
    {
        let mut untold = Untold {
            pages: zero_pages(alloc, count as usize + 1)?,
            free: FreeList::new(alloc, 1, count, &[])?,
            fetches: 0,
        };
        for n in 1..=count {
            if untold.is_live(n) {
                untold.give_page(n);
            }
        }
        Ok(untold)
    }

    /// The number behind that of the last page.
    pub(crate) fn end(&self) -> u32 {
        self.pages.len() as u32
    }
}

/// So many zero pages.
fn zero_pages(alloc: Global, count: usize) -> Result<Vec<[u8; PAGE_SIZE]>, Memory>
    ensures { IfOk result (λ pages. length pages.items ≡ count) }
{
    let mut pages = Vec::new(alloc);
    pages.resize(count, [0; PAGE_SIZE])?;
    Ok(pages)
}

impl Pages for Untold {
    ghost use Rattle.std.specs.Prelude.{true, false, []};
    ghost use Rattle.tree_bench.specs.Untold as words;

    ghost is_known = { λ _. false };

    ghost has = { words.has };

    ghost page_at = { words.page_at };

    ghost in_pool = { words.has };

    ghost free = { λ p. p.pool.numbers };

    ghost is_open = { λ _. true };

    ghost put_pages = { λ _. [] };

    ghost fetches = { λ p. p.fetches };

    ghost faults = { λ _. 0 };

    ghost calm = { λ _ _. Unit };

    ghost pool_is_there = { λ _ _ is. is };

    ghost calm_same = { λ _. tt };

    ghost calm_chains = { λ _ _ _ _ _. tt };

    fn get(&mut self, n: u32, into: &mut [u8; PAGE_SIZE]) -> Result<(), PageError> {
        self.fetches = self.fetches.saturating_add(1);
        *into = self.pages[n as usize];
        Ok(())
    }

    fn put(&mut self, n: u32, page: &[u8; PAGE_SIZE]) {
        self.pages[n as usize] = *page;
    }

    fn take_page(&mut self) -> u32 {
        self.free.take()
    }

    fn give_page(&mut self, n: u32) {
        self.free.give(n);
    }

    fn is_live(&self, n: u32) -> bool {
        self.free.is_live(n)
    }

    fn free_pages(&self) -> u32 {
        self.free.len()
    }
}
