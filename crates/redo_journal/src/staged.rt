//! The pages of a change on its way to the disk.
ghost use Rattle.std.specs.Prelude.{◌≡◌, ◌+◌, ◌*◌, ◌<◌, ◌≤◌, ◌==◌, [], ◌∷◌, ◌++◌, IsTrue, IfOk, IfSome, OnOk, MatchOption, MatchResult, None, Some, length, take, drop, slice_index, vec_len, vec_capacity};
ghost use Rattle.std.specs.Map.{keys_of, lookup};
ghost use Rattle.redo_journal.specs.Calls.{DiskServes};
ghost use Rattle.redo_journal.specs.declared.layout.TheConstants.{PAGE_SIZE, CHANGE_LIMIT, FIRST_IMAGE, LEAST_PAGES};
ghost use Rattle.redo_journal.specs.Pages.{IsHome};
ghost use Rattle.spb_edge.specs.Fault.{CountsError};
ghost use Rattle.redo_journal.specs.Header.{AreHomes, header_page};
ghost use Rattle.redo_journal.specs.Redo.{entries_from};
ghost use Rattle.redo_journal.specs.Change.{StagedPages, IsChange, Stages, IsNonDecreasing, IsPlaceOf, IsBetween, joined_images};

use crate::device::read_piece;
use crate::header::{Numbers, header_of};
use crate::layout::{CHANGE_LIMIT, FIRST_IMAGE, PAGE_SIZE};
use crate::{DiskFault, StageError};
use arrayvec::ArrayVec;
use spb_edge::{Disk, Memory};
use std::alloc::Global;
use std::marker::Model;

/// The pages of a change in ascending order of their numbers, after a page of room for their header. All of its memory
/// is taken when it is made.
#[derive(Drop)]
pub(crate) struct Staged {
    total: u32,
    numbers: Numbers,
    body: Vec<u8>,
}

impl Model for Staged {
    ghost use Rattle.std.specs.Prelude.{take, drop, vec_capacity};
    ghost use Rattle.redo_journal.specs.declared.layout.TheConstants.{PAGE_SIZE};
    ghost use Rattle.redo_journal.specs.Change.{StagedPages, IsStaged, page_entries};

    ghost Value = { StagedPages };

    ghost view = { λ s. record {
      total = s.total;
      header = take PAGE_SIZE s.body.items;
      pages = page_entries PAGE_SIZE s.numbers.items (drop PAGE_SIZE s.body.items);
    } };

    ghost invariant = { λ s. IsStaged s.total s.numbers.items s.body.items (vec_capacity s.body) };
}

impl Staged {
    /// No page, of a file of this many.
    pub(crate) fn new(alloc: Global, total: u32) -> Result<Staged, Memory>
        ensures { IfOk result (λ staged. (staged.pages ≡ []) × (staged.total ≡ total)) }
    {
        let mut body = Vec::with_capacity(alloc, (1 + CHANGE_LIMIT) * PAGE_SIZE)?;
        body.extend_from_slice(&[0; PAGE_SIZE])?;
        Ok(Staged {
            total,
            numbers: ArrayVec::new(),
            body,
        })
    }

    /// How many pages the file has.
    pub(crate) fn total(&self) -> u32
        ensures { result ≡ self.now.total }
    {
        self.total
    }

    /// How many pages are staged.
    pub(crate) fn count(&self) -> usize
        ensures count { result ≡ length self.now.pages }
        ensures sound { IsChange self.now }
    {
        self.numbers.len()
    }

    /// Stages a page: it replaces the one with its number, or is added.
    pub(crate) fn stage(&mut self, n: u32, page: &[u8; PAGE_SIZE]) -> Result<(), StageError>
        requires { IsHome self.old.total n }
        ensures stages { Stages result self.old.pages n page.now self.new.pages }
        ensures few { length self.new.pages ≤ CHANGE_LIMIT }
        ensures total { self.new.total ≡ self.old.total }
    {
        match place_of(self.numbers.as_slice(), n) {
            Ok(place) => {
                replace_page(&mut self.body, place + 1, page);
                Ok(())
            }
            Err(place) => {
                if self.numbers.is_full() {
                    return Err(StageError::TooMany);
                }
                self.numbers.insert(place, n);
                insert_page(&mut self.body, place + 1, page);
                Ok(())
            }
        }
    }

    /// The page of this number.
    pub(crate) fn page(&self, n: u32) -> Option<&[u8]>
        ensures page { MatchOption result (lookup (λ m. m == n) self.now.pages ≡ None) (λ page. lookup (λ m. m == n) self.now.pages ≡ Some page.now) }
        ensures whole { IfSome result (λ page. length page.now ≡ PAGE_SIZE) }
    {
        match place_of(self.numbers.as_slice(), n) {
            Ok(place) => Some(self.entry(place).1),
            Err(_) => None,
        }
    }

    /// Takes the journal's images of the pages of these numbers, in place of what is staged, from the
    /// disk. One device call.
    pub(crate) fn load<D: Disk>(&mut self, disk: &mut D, numbers: Numbers) -> Result<(), DiskFault>
        requires homes { AreHomes self.old.total 0 numbers.items }
        requires size { PAGE_SIZE * LEAST_PAGES ≤ D.size_of disk.old }
        ensures images { IsTrue (D.is_known disk.old) → OnOk result (self.new.pages ≡ entries_from (D.image disk.old) FIRST_IMAGE numbers.items) }
        ensures total { self.new.total ≡ self.old.total }
        ensures quiet { D.quiet disk.old disk.new }
        ensures image { IsTrue (D.is_known disk.old) → D.image disk.new ≡ D.image disk.old }
        ensures disk { DiskServes D.is_known D.knows_crashes D.size_of D.faults result disk.old disk.new }
    {
        self.numbers = numbers;
        read_images(disk, &mut self.body, self.numbers.len())
    }

    /// Takes all pages out.
    pub(crate) fn clear(&mut self)
        ensures none { self.new.pages ≡ [] }
        ensures total { self.new.total ≡ self.old.total }
    {
        self.numbers.clear();
        self.body.truncate(PAGE_SIZE);
    }

    /// Writes the header of the pages.
    pub(crate) fn seal(&mut self)
        ensures same { self.new.pages ≡ self.old.pages }
        ensures header { self.new.header ≡ header_page (keys_of self.old.pages) }
        ensures total { self.new.total ≡ self.old.total }
    {
        let header = header_of(self.numbers.as_slice());
        replace_page(&mut self.body, 0, &header);
    }

    /// The header and the pages, one after another.
    pub(crate) fn body(&self) -> &[u8]
        ensures bytes { result.now ≡ self.now.header ++ joined_images self.now.pages }
        ensures long { length result.now ≡ PAGE_SIZE * (1 + length self.now.pages) }
        ensures sound { IsChange self.now }
    {
        &self.body
    }

    /// The number of the page at a place, and the page.
    pub(crate) fn entry(&self, place: usize) -> (u32, &[u8])
        requires { place < length self.now.pages }
        ensures entry { self.now.pages ≡ take place self.now.pages ++ (result.0, result.1.now) ∷ drop (place + 1) self.now.pages }
        ensures number { result.0 ≡ slice_index (keys_of self.now.pages) place }
        ensures home { IsHome self.now.total result.0 }
        ensures page { length result.1.now ≡ PAGE_SIZE }
    {
        let numbers = self.numbers.as_slice();
        let at = (place + 1) * PAGE_SIZE;
        (numbers[place], &self.body[at..at + PAGE_SIZE])
    }
}

/// Reads this many of the journal's images after the header's page. There is room for them.
fn read_images<D: Disk>(disk: &mut D, body: &mut Vec<u8>, count: usize) -> Result<(), DiskFault>
    requires few { count ≤ CHANGE_LIMIT }
    requires header { PAGE_SIZE ≤ vec_len body.old }
    requires room { PAGE_SIZE * (1 + CHANGE_LIMIT) ≤ vec_capacity body.old }
    requires size { PAGE_SIZE * LEAST_PAGES ≤ D.size_of disk.old }
    ensures images { IsTrue (D.is_known disk.old)
        → OnOk result (drop PAGE_SIZE body.new.items ≡ take (PAGE_SIZE * count) (drop (PAGE_SIZE * FIRST_IMAGE) (D.image disk.old))) }
    ensures len { vec_len body.new ≡ PAGE_SIZE * (1 + count) }
    ensures capacity { vec_capacity body.old ≤ vec_capacity body.new }
    ensures quiet { D.quiet disk.old disk.new }
    ensures image { IsTrue (D.is_known disk.old) → D.image disk.new ≡ D.image disk.old }
    ensures disk { DiskServes D.is_known D.knows_crashes D.size_of D.faults result disk.old disk.new }
{
    let Ok(()) = body.resize(PAGE_SIZE * (1 + count), 0) else {
        unreachable!()
    };
    read_piece(
        disk,
        PAGE_SIZE as u64 * FIRST_IMAGE as u64,
        &mut body[PAGE_SIZE..],
    )
}

/// Where a number is among ascending ones, or where it belongs.
fn place_of(numbers: &[u32], n: u32) -> Result<usize, usize>
    requires { IsNonDecreasing numbers.now }
    ensures { MatchResult result (IsPlaceOf numbers.now n) (IsBetween numbers.now n) }
{
    numbers.binary_search(&n)
}

/// Overwrites the page at this place, from 0.
fn replace_page(pages: &mut Vec<u8>, place: usize, page: &[u8; PAGE_SIZE])
    requires { PAGE_SIZE * place + PAGE_SIZE ≤ vec_len pages.old }
    ensures items { pages.new.items ≡ take (PAGE_SIZE * place) pages.old.items ++ (page.now ++ drop (PAGE_SIZE * place + PAGE_SIZE) pages.old.items) }
    ensures len { vec_len pages.new ≡ vec_len pages.old }
    ensures capacity { vec_capacity pages.old ≤ vec_capacity pages.new }
{
    let at = PAGE_SIZE * place;
    pages[at..at + PAGE_SIZE].copy_from_slice(page);
}

/// Inserts a page before the one at this place, from 0, or after all of them. There is room for it.
fn insert_page(pages: &mut Vec<u8>, place: usize, page: &[u8; PAGE_SIZE])
    requires place { PAGE_SIZE * place ≤ vec_len pages.old }
    requires room { vec_len pages.old + PAGE_SIZE ≤ vec_capacity pages.old }
    ensures items { pages.new.items ≡ take (PAGE_SIZE * place) pages.old.items ++ (page.now ++ drop (PAGE_SIZE * place) pages.old.items) }
    ensures capacity { vec_capacity pages.old ≤ vec_capacity pages.new }
{
    let at = PAGE_SIZE * place;
    let end = pages.len();
    let Ok(()) = pages.extend_from_slice(page) else {
        unreachable!()
    };
    if at == end {
        return;
    }
    pages.copy_within(at..end, at + PAGE_SIZE);
    pages[at..at + PAGE_SIZE].copy_from_slice(page);
}
