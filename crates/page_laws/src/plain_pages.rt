//! Pages in memory.
ghost use Rattle.std.specs.Prelude.{◌≡◌, ◌-◌, ◌≤◌, IfOk, replicate, vec_capacity};
ghost use Rattle.std.specs.List.{range_with_len};
ghost use Rattle.page_laws.specs.declared.pages.TheConstants.{PAGE_SIZE};
ghost use Rattle.page_laws.specs.PlainPages.{zeros};

use crate::{PAGE_SIZE, PageError, Pages};
use spb_edge::Memory;
use std::alloc::Global;
use std::marker::Model;

/// Pages in memory, for tests. They never fail, a change is always open, and no page counts as put in
/// it, so it has no bound. `is_live` takes time in proportion to the free pages.
#[derive(Debug, Drop)]
pub struct PlainPages {
    pages: Vec<[u8; 512]>,
    first: u32,
    free: Vec<u32>,
    fetches: u64,
}

impl Model for PlainPages {
    ghost use Rattle.std.specs.Prelude.{vec_capacity};
    ghost use Rattle.page_laws.specs.PlainPages.{Plain, IsPlain};

    ghost Value = { Plain };

    ghost view = { λ p. record { pages = p.pages.items; first = p.first; free = p.free.items; fetches = p.fetches } };

    ghost invariant = { λ p. IsPlain (record { pages = p.pages.items; first = p.first; free = p.free.items; fetches = p.fetches }) (vec_capacity p.free) };
}

impl PlainPages {
    /// So many zero pages. Those from `first` on are the pool, all of them free.
    pub fn new(alloc: Global, pages: u32, first: u32) -> Result<PlainPages, PageError>
        ensures { IfOk result (λ plain. plain ≡ zeros pages first) }
    {
        let free = numbers_between(alloc, first, pages)?;
        Ok(PlainPages {
            pages: zero_pages(alloc, pages)?,
            first,
            free,
            fetches: 0,
        })
    }
}

/// So many zero pages.
fn zero_pages(alloc: Global, count: u32) -> Result<Vec<[u8; 512]>, Memory>
    ensures { IfOk result (λ pages. pages.items ≡ replicate count (replicate PAGE_SIZE 0)) }
{
    let mut pages = Vec::new(alloc);
    pages.resize(count as usize, [0; PAGE_SIZE])?;
    Ok(pages)
}

/// The numbers from `first` on and below `end`.
fn numbers_between(alloc: Global, first: u32, end: u32) -> Result<Vec<u32>, Memory>
    ensures { IfOk result (λ numbers. (numbers.items ≡ range_with_len first (end - first)) × (end - first ≤ vec_capacity numbers)) }
{
    let count = end.saturating_sub(first);
    let mut numbers = Vec::with_capacity(alloc, count as usize)?;
    for i in 0..count {
        numbers.push(first + i)?;
    }
    Ok(numbers)
}

impl Pages for PlainPages {
    ghost use Rattle.std.specs.Prelude.{true, []};
    ghost use Rattle.page_laws.specs.PlainPages as words;

    ghost is_known = { λ _. true };

    ghost has = { words.has };

    ghost page_at = { words.page_at };

    ghost in_pool = { words.in_pool };

    ghost free = { λ p. p.free };

    ghost is_open = { λ _. true };

    ghost put_pages = { λ _. [] };

    ghost fetches = { λ p. p.fetches };

    ghost faults = { λ _. 0 };

    ghost calm = { λ _ _. Unit };

    ghost pool_is_there = { words.pool_is_there };

    ghost calm_same = { λ _. tt };

    ghost calm_chains = { λ _ _ _ _ _. tt };

    fn get(&mut self, n: u32, into: &mut [u8; 512]) -> Result<(), PageError> {
        self.fetches = self.fetches.saturating_add(1);
        *into = self.pages[n as usize];
        Ok(())
    }

    fn put(&mut self, n: u32, page: &[u8; 512]) {
        self.pages[n as usize] = *page;
    }

    fn take_page(&mut self) -> u32 {
        let Some(n) = self.free.pop() else {
            unreachable!()
        };
        n
    }

    fn give_page(&mut self, n: u32) {
        let Ok(()) = self.free.push(n) else {
            unreachable!()
        };
    }

    fn is_live(&self, n: u32) -> bool {
        self.first <= n && (n as usize) < self.pages.len() && !self.free.contains(&n)
    }

    fn free_pages(&self) -> u32 {
        self.free.len() as u32
    }
}
