//! Numbered pages, some of them in a pool from which pages are taken and to which they are given back.
ghost use Rattle.std.specs.Prelude.{◌≡◌, ℕ, ◌<◌, [], ◌∷◌, Bool, List, IsTrue, OnOk, length};

use crate::PageError;

/// How many bytes a page has.
pub const PAGE_SIZE: usize = 512;

/// How many pages a change may put.
pub const CHANGE_LIMIT: usize = 80;

/// Numbered pages of 512 bytes. Some of them are the pool, whose pages are free or live.
///
/// Pages may tell what they hold to contracts or not. What is put, taken and given back is a change,
/// which the owner of the pages opens and ends.
pub trait Pages {
    ghost use Rattle.std.specs.Prelude.{◌≡◌, ℕ, ◌<◌, [], ◌∷◌, Bool, List, IsTrue, OnOk, length};
    ghost use Rattle.std.specs.List.Sorted.{IsPermutation};
    ghost use Rattle.page_laws.specs.Errors.{CountsFault};
    ghost use Rattle.page_laws.specs.Pages.{risen, is_live, AreFree, HasRoom, JoinsAtMost};

    // whether the pages tell what they hold
    ghost is_known: { Self → Bool };

    // whether there is a page of this number
    ghost has: { Self → ℕ → Bool };

    // what each page holds, if it is known
    ghost page_at: { Self → ℕ → List ℕ };

    // whether the page is of the pool
    ghost in_pool: { Self → ℕ → Bool };

    // the free pages of the pool
    ghost free: { Self → List ℕ };

    // whether a change is open
    ghost is_open: { Self → Bool };

    // the pages put in the open change, as far as they are counted
    ghost put_pages: { Self → List ℕ };

    // how many pages were asked for
    ghost fetches: { Self → ℕ };

    // how many calls failed so far
    ghost faults: { Self → ℕ };

    // nothing happened between the two states but fetches and what a change in memory may do
    ghost calm: { Self → Self → Type 0 };

    /// Fills `into` with page `n`. It counts as a fetch, whatever it answers.
    fn get(&mut self, n: u32, into: &mut [u8; 512]) -> Result<(), PageError>
        requires there { IsTrue (has self.old n) }
        ensures data { IsTrue (is_known self.old) → OnOk result (into.new ≡ page_at self.old n) }
        ensures fetches { fetches self.new ≡ risen (fetches self.old) 1 }
        ensures told { is_known self.new ≡ is_known self.old }
        ensures pages { IsTrue (is_known self.old) → page_at self.new ≡ page_at self.old }
        ensures map { (has self.new ≡ has self.old) × (in_pool self.new ≡ in_pool self.old) }
        ensures free { (free self.new ≡ free self.old) × AreFree (in_pool self.new) (free self.new) }
        ensures open { (is_open self.new ≡ is_open self.old) × (put_pages self.new ≡ put_pages self.old) }
        ensures fault { CountsFault result (faults self.old) (faults self.new) }
        ensures calm { calm self.old self.new };

    /// Makes `page` page `n`, in the open change. It takes no memory.
    fn put(&mut self, n: u32, page: &[u8; 512])
        requires open { IsTrue (is_open self.old) }
        requires there { IsTrue (has self.old n) }
        requires room { HasRoom n (put_pages self.old) }
        ensures here { page_at self.new n ≡ page.now }
        ensures others { (m : ℕ) → (m ≡ n → ⊥) → page_at self.new m ≡ page_at self.old m }
        ensures put { JoinsAtMost n (put_pages self.old) (put_pages self.new) }
        ensures told { is_known self.new ≡ is_known self.old }
        ensures map { (has self.new ≡ has self.old) × (in_pool self.new ≡ in_pool self.old) }
        ensures free { (free self.new ≡ free self.old) × AreFree (in_pool self.new) (free self.new) }
        ensures open { is_open self.new ≡ is_open self.old }
        ensures counts { (fetches self.new ≡ fetches self.old) × (faults self.new ≡ faults self.old) }
        ensures calm { calm self.old self.new };

    /// Takes a page out of the free ones, in the open change.
    fn take_page(&mut self) -> u32
        requires open { IsTrue (is_open self.old) }
        requires some { 0 < length (free self.old) }
        ensures taken { IsPermutation (free self.old) (result ∷ free self.new) }
        ensures free { AreFree (in_pool self.old) (free self.old) × AreFree (in_pool self.new) (free self.new) }
        ensures told { is_known self.new ≡ is_known self.old }
        ensures pages { page_at self.new ≡ page_at self.old }
        ensures map { (has self.new ≡ has self.old) × (in_pool self.new ≡ in_pool self.old) }
        ensures open { (is_open self.new ≡ is_open self.old) × (put_pages self.new ≡ put_pages self.old) }
        ensures counts { (fetches self.new ≡ fetches self.old) × (faults self.new ≡ faults self.old) }
        ensures calm { calm self.old self.new };

    /// Makes page `n` of the pool free, in the open change.
    fn give_page(&mut self, n: u32)
        requires open { IsTrue (is_open self.old) }
        requires live { IsTrue (is_live (in_pool self.old) (free self.old) n) }
        ensures given { IsPermutation (free self.new) (n ∷ free self.old) }
        ensures free { AreFree (in_pool self.new) (free self.new) }
        ensures told { is_known self.new ≡ is_known self.old }
        ensures pages { page_at self.new ≡ page_at self.old }
        ensures map { (has self.new ≡ has self.old) × (in_pool self.new ≡ in_pool self.old) }
        ensures open { (is_open self.new ≡ is_open self.old) × (put_pages self.new ≡ put_pages self.old) }
        ensures counts { (fetches self.new ≡ fetches self.old) × (faults self.new ≡ faults self.old) }
        ensures calm { calm self.old self.new };

    /// Whether page `n` is of the pool and isn't free.
    fn is_live(&self, n: u32) -> bool
        ensures live { result ≡ is_live (in_pool self.now) (free self.now) n }
        ensures free { AreFree (in_pool self.now) (free self.now) };

    /// How many pages are free.
    fn free_pages(&self) -> u32
        ensures count { result ≡ length (free self.now) }
        ensures free { AreFree (in_pool self.now) (free self.now) };

    // the pages of the pool are there
    ghost pool_is_there: { (p : Self) (n : ℕ) → IsTrue (in_pool p n) → IsTrue (has p n) };

    // calm holds between a state and itself
    ghost calm_same: { (p : Self) → calm p p };

    // calm chains
    ghost calm_chains: { (old mid new : Self) → calm old mid → calm mid new → calm old new };
}
