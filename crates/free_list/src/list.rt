//! A list of free numbers, and a mark for each number that says whether it is in the list.
ghost use Rattle.std.specs.Prelude.{◌≡◌, ℕ, ◌+◌, ◌<◌, ◌≤◌, [], ◌∷◌, ◌++◌, length, IsTrue, IfOk};
ghost use Rattle.page_laws.specs.Pages.{is_among, is_live, AreFree};
ghost use Rattle.free_list.specs.FreeNumbers.{is_within};

use spb_edge::Memory;
use std::alloc::Global;
use std::marker::Model;

/// The numbers of a range that are free, in the order in which they became so. Its memory is taken when
/// it is made: for each number of the range four bytes of the list, and one of the mark that says whether
/// the number is in it.
#[derive(Debug, Drop)]
pub struct FreeList {
    first: u32,
    free: Vec<u32>,
    marks: Vec<bool>,
}

impl Model for FreeList {
    ghost use Rattle.std.specs.Prelude.{length, vec_capacity};
    ghost use Rattle.free_list.specs.FreeNumbers.{FreeNumbers, IsFreeList};

    ghost Value = { FreeNumbers };

    ghost view = { λ l. record { first = l.first; count = length l.marks.items; numbers = l.free.items } };

    ghost invariant = { λ l. IsFreeList (record { first = l.first; count = length l.marks.items; numbers = l.free.items }) l.marks.items (vec_capacity l.free) };
}

impl FreeList {
    /// The `count` numbers from `first` on, of which these are free. It takes time in proportion to the
    /// range.
    pub fn new(alloc: Global, first: u32, count: u32, free: &[u32]) -> Result<FreeList, Memory>
        requires range { first + count ≤ 4294967295 }
        requires free { AreFree (is_within first count) free.now }
        ensures { IfOk result (λ list. list ≡ record { first = first; count = count; numbers = free.now }) }
    {
        let mut list = none_free(alloc, first, count)?;
        for &n in free {
            list.give(n);
        }
        Ok(list)
    }

    /// Takes the number that became free last. It takes constant time.
    pub fn take(&mut self) -> u32
        requires some { 0 < length self.old.numbers }
        ensures taken { self.old.numbers ≡ self.new.numbers ++ result ∷ [] }
        ensures live { IsTrue (is_live (is_within self.new.first self.new.count) self.new.numbers result) }
        ensures range { (self.new.first ≡ self.old.first) × (self.new.count ≡ self.old.count) }
        ensures free { AreFree (is_within self.old.first self.old.count) self.old.numbers × AreFree (is_within self.new.first self.new.count) self.new.numbers }
    {
        let Some(n) = self.free.pop() else {
            unreachable!()
        };
        self.marks[(n - self.first) as usize] = false;
        n
    }

    /// Makes a number of the range free. It takes constant time and no memory.
    pub fn give(&mut self, n: u32)
        requires live { IsTrue (is_live (is_within self.old.first self.old.count) self.old.numbers n) }
        ensures given { self.new.numbers ≡ self.old.numbers ++ n ∷ [] }
        ensures range { (self.new.first ≡ self.old.first) × (self.new.count ≡ self.old.count) }
        ensures free { AreFree (is_within self.new.first self.new.count) self.new.numbers }
    {
        let Ok(()) = self.free.push(n) else {
            unreachable!()
        };
        self.marks[(n - self.first) as usize] = true;
    }

    /// Whether the number is free. It takes constant time.
    pub fn is_free(&self, n: u32) -> bool
        ensures { result ≡ is_among n self.now.numbers }
    {
        self.has(n) && self.marks[(n - self.first) as usize]
    }

    /// Whether the number is of the range and isn't free. It takes constant time.
    pub fn is_live(&self, n: u32) -> bool
        ensures live { result ≡ is_live (is_within self.now.first self.now.count) self.now.numbers n }
        ensures free { AreFree (is_within self.now.first self.now.count) self.now.numbers }
    {
        self.has(n) && !self.marks[(n - self.first) as usize]
    }

    /// Whether the number is of the range.
    fn has(&self, n: u32) -> bool
        ensures { result ≡ is_within self.now.first self.now.count n }
    {
        self.first <= n && ((n - self.first) as usize) < self.marks.len()
    }

    /// How many numbers are free.
    pub fn len(&self) -> u32
        ensures count { result ≡ length self.now.numbers }
        ensures free { AreFree (is_within self.now.first self.now.count) self.now.numbers }
    {
        self.free.len() as u32
    }

    /// Makes the same numbers free as in the other list, which has the same range. It takes time in
    /// proportion to the range, and no memory.
    pub fn copy_from(&mut self, other: &FreeList)
        requires range { (self.old.first ≡ other.now.first) × (self.old.count ≡ other.now.count) }
        ensures { self.new ≡ other.now }
    {
        self.free.clear();
        let Ok(()) = self.free.extend_from_slice(&other.free) else {
            unreachable!()
        };
        self.marks.copy_from_slice(&other.marks);
    }
}

/// A range of which no number is free, with room for all of them.
fn none_free(alloc: Global, first: u32, count: u32) -> Result<FreeList, Memory>
    requires { first + count ≤ 4294967295 }
    ensures { IfOk result (λ list. list ≡ record { first = first; count = count; numbers = [] }) }
{
    let free = Vec::with_capacity(alloc, count as usize)?;
    let mut marks = Vec::new(alloc);
    marks.resize(count as usize, false)?;
    Ok(FreeList { first, free, marks })
}
