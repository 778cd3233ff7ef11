//! The pages of a new store's file.
ghost use Rattle.std.specs.Prelude.{◌≡◌, ℕ, ◌+◌, ◌*◌, ◌^◌, ◌<◌, ◌≤◌, All, MatchOption, length};
ghost use Rattle.object_file.specs.declared.slots.TheConstants.{OBJECT_LIMIT};
ghost use Rattle.object_file.specs.Slots.{Free, slot_in};
ghost use Rattle.redo_journal.specs.Pages.{page};
ghost use Rattle.store_check.specs.Profile.{IsInRange};
ghost use Rattle.store_format.specs.NewFile as words;
ghost use Rattle.store_format.specs.NewFile.{IsFileOf, zero_page};

use page_laws::PAGE_SIZE;
use redo_journal::layout::FIRST_HOME;
use spb_edge::Bytes;
use store_check::{Profile, file_pages, pivot_page, slot_pages, write_profile};

/// The first byte of a free slot, whose other bytes aren't read.
const FREE_MARK: u8 = 255;

/// The pages of a new store's file that aren't zero, one of each kind, and where they belong.
#[derive(Debug, Drop)]
pub(crate) struct NewFile {
    /// The profile page.
    profile: [u8; PAGE_SIZE],
    /// The page of pivots 0 to 3.
    first_pivots: [u8; PAGE_SIZE],
    /// The page of pivots 4 to 7.
    last_pivots: [u8; PAGE_SIZE],
    /// Each page of the slots.
    free_slots: [u8; PAGE_SIZE],
    /// The first page after those of the slots.
    pool_start: u32,
    /// How many pages the file has.
    total: u32,
}

impl NewFile {
    /// The file of an empty store with this profile and these pivots.
    pub(crate) fn new(profile: &Profile, pivots: &[Bytes]) -> NewFile
        requires range { IsInRange profile.now }
        requires short { All (λ pivot. length pivot ≤ OBJECT_LIMIT) pivots.now }
        ensures { IsFileOf profile.now pivots.now result }
    {
        NewFile {
            profile: write_profile(profile),
            first_pivots: pivot_page(pivots, 0),
            last_pivots: pivot_page(pivots, 4),
            free_slots: free_page(),
            pool_start: FIRST_HOME + slot_pages(profile.cap),
            total: file_pages(profile.cap),
        }
    }

    /// How many pages the file has.
    pub(crate) fn total(&self) -> u32
        ensures { result ≡ self.now.total }
    {
        self.total
    }

    /// Page n, if it isn't zero before the magic is written.
    #[tactic(auto, unfolding(crate::specs::NewFile::new_page))]
    fn page(&self, n: u32) -> Option<&[u8; PAGE_SIZE]>
        ensures { MatchOption result (words.new_page self.now n ≡ zero_page) (λ page. words.new_page self.now n ≡ page.now) }
    {
        match n {
            1 => Some(&self.profile),
            2 => Some(&self.first_pivots),
            3 => Some(&self.last_pivots),
            _ if FIRST_HOME <= n && n < self.pool_start => Some(&self.free_slots),
            _ => None,
        }
    }
}

/// A page of free slots.
fn free_page() -> [u8; PAGE_SIZE]
    ensures { (place : ℕ) → place < 4 → slot_in result place ≡ Free }
{
    [FREE_MARK; PAGE_SIZE]
}

/// Makes the bytes page n.
#[tactic(auto, unfolding(crate::specs::NewFile::zero_page))]
fn lay_page(file: &NewFile, n: u32, bytes: &mut [u8])
    requires { length bytes.old ≡ PAGE_SIZE }
    ensures page { bytes.new ≡ words.new_page file.now n }
    ensures len { length bytes.new ≡ PAGE_SIZE }
{
    match file.page(n) {
        Some(page) => bytes.copy_from_slice(page),
        None => bytes.fill(0),
    }
}

/// Makes the first `count` pages of the bytes those from `first` on.
pub(crate) fn lay_pages(file: &NewFile, first: u32, count: u32, bytes: &mut [u8])
    requires numbers { first + count ≤ 2 ^ 31 }
    requires room { PAGE_SIZE * count ≤ length bytes.old }
    ensures pages { (i : ℕ) → i < count → page bytes.new i ≡ words.new_page file.now (first + i) }
    ensures len { length bytes.new ≡ length bytes.old }
{
    for i in 0..count {
        let at = PAGE_SIZE * i as usize;
        lay_page(file, first + i, &mut bytes[at..at + PAGE_SIZE]);
    }
}
