//! Sets of page numbers, as a mark for each page of a range.
ghost use Rattle.std.specs.Prelude.{◌≡◌, ℕ, ◌==◌, ◌||◌, Bool, false, not, length, IsTrue, IfOk};
ghost use Rattle.free_list.specs.FreeNumbers.{is_within};
ghost use Rattle.tree_check.specs.PageSets as words;
ghost use Rattle.tree_check.specs.PageSets.{HasSameRange};

use spb_edge::Memory;
use std::alloc::Global;
use std::marker::Model;

/// Some of the pages of a range: a byte for each page tells whether it is one of them.
#[derive(Debug, Drop)]
pub struct PageSet {
    first: u32,
    marks: Vec<bool>,
}

impl Model for PageSet {
    ghost use Rattle.tree_check.specs.PageSets.{Marks};

    ghost Value = { Marks };

    ghost view = { λ s. record { first = s.first; marks = s.marks.items } };
}

impl PageSet {
    /// None of the `count` pages from `first` on. It takes time in proportion to their number.
    #[tactic(auto, unfolding(crate::specs::PageSets::has))]
    pub fn new(alloc: Global, first: u32, count: u32) -> Result<PageSet, Memory>
        ensures range { IfOk result (λ set. (n : ℕ) → words.covers set n ≡ is_within first count n) }
        ensures empty { IfOk result (λ set. (n : ℕ) → words.has set n ≡ false) }
    {
        let mut marks = Vec::new(alloc);
        marks.resize(count as usize, false)?;
        Ok(PageSet { first, marks })
    }

    /// Adds a page of the range, and tells whether it is new. It takes constant time.
    #[tactic(auto, unfolding(crate::specs::PageSets::has))]
    pub fn insert(&mut self, n: u32) -> bool
        requires { IsTrue (words.covers self.old n) }
        ensures new { result ≡ not (words.has self.old n) }
        ensures members { (m : ℕ) → words.has self.new m ≡ (words.has self.old m || (n == m)) }
        ensures range { HasSameRange self.old self.new }
    {
        let place = (n - self.first) as usize;
        let is_new = !self.marks[place];
        self.marks[place] = true;
        is_new
    }

    /// Whether the page is in the set. It takes constant time.
    #[tactic(auto, unfolding(crate::specs::PageSets::has))]
    pub fn contains(&self, n: u32) -> bool
        ensures { result ≡ words.has self.now n }
    {
        self.first <= n
            && self
                .marks
                .get((n - self.first) as usize)
                .is_some_and(|&mark| mark)
    }
}
