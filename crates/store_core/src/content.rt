//! What the pages before the journal hold: the profile and the pivots.
ghost use Rattle.std.specs.Prelude.{◌≡◌, ◌↔◌, ℕ, ◌+◌, ◌/◌, ◌<◌, ◌≤◌, ◌∷◌, ◌++◌, [], List, IsTrue, Some, MatchOption, MatchResult, IfOk, IfErr, OnOk};
ghost use Rattle.metrics_builtin.specs.Space.{fits};
ghost use Rattle.page_laws.specs.declared.rule.Rule.TheVariants as rule;
ghost use Rattle.store_check.specs.Layout.{file_pages as pages_asked};
ghost use Rattle.store_check.specs.Pivots.{pivot_at};
ghost use Rattle.store_check.specs.Profile.{IsInRange};
ghost use Rattle.store_check.specs.Damage.{IsPivot};
ghost use Rattle.store_core.specs.declared.content.TheConstants.{PIVOT_PAGE, RECORDS, RECORDS_PER_PAGE};
ghost use Rattle.store_core.specs.declared.errors.OpenError.TheVariants as refusal;
ghost use Rattle.store_core.specs.Content.{pivot_pages, HoldsProfile, RefusesContent, HoldsPivots, RefusesPivots};

use crate::OpenError;
use crate::admission::admits;
use page_laws::{PAGE_SIZE, Rule};
use spb_edge::{Bytes, Memory};
use std::alloc::Global;
use store_check::{Profile, ProfileFault, file_pages, read_pivot, read_profile};

/// The page of the profile.
pub(crate) const PROFILE_PAGE: u32 = 1;

/// The first page of the pivots' records.
pub(crate) const PIVOT_PAGE: u32 = 2;

/// How many records of pivots a page has.
const RECORDS_PER_PAGE: usize = 4;

/// How many records of pivots a file has.
const RECORDS: usize = 8;

/// The profile that the page holds, of a file of so many pages. NotStore comes exactly if the page's format
/// isn't known, else Damaged with page 1 and the rule `profile` exactly if a field is out of its range, else
/// Damaged with page 0 and the rule `size` exactly if the profile asks for another number of pages.
pub(crate) fn profile_of(page: &[u8; PAGE_SIZE], total: u32) -> Result<Profile, OpenError>
    ensures exact { (pages : ℕ → List ℕ) → pages 1 ≡ page.now → MatchResult result (HoldsProfile total pages) (RefusesContent total pages) }
    ensures fits { IfOk result (λ profile. IsInRange profile × (pages_asked profile.cap ≡ total)) }
    ensures no_fault { IfErr result (λ e. e ≡ refusal.DiskFault → ⊥) }
{
    match read_profile(page) {
        Ok(profile) => fitting(profile, total),
        Err(ProfileFault::NoFormat) => Err(OpenError::NotStore),
        Err(ProfileFault::BadField) => Err(OpenError::Damaged {
            page: PROFILE_PAGE,
            rule: Rule::Profile,
        }),
    }
}

/// The profile, if it asks for so many pages.
fn fitting(profile: Profile, total: u32) -> Result<Profile, OpenError>
    requires { IsInRange profile }
    ensures exact { MatchResult result (λ kept. (kept ≡ profile) × (pages_asked profile.cap ≡ total))
        (λ e. (e ≡ refusal.Damaged 0 rule.Size) × (pages_asked profile.cap ≡ total → ⊥)) }
    ensures fits { IfOk result (λ kept. IsInRange kept × (pages_asked kept.cap ≡ total)) }
    ensures no_fault { IfErr result (λ e. e ≡ refusal.DiskFault → ⊥) }
{
    if file_pages(profile.cap) != total {
        return Err(OpenError::Damaged {
            page: 0,
            rule: Rule::Size,
        });
    }
    Ok(profile)
}

/// The pages with the pivots' records.
#[derive(Drop)]
pub(crate) struct PivotPages {
    /// Page 2.
    pub(crate) first: [u8; PAGE_SIZE],
    /// Page 3.
    pub(crate) second: [u8; PAGE_SIZE],
}

impl PivotPages {
    /// The object in a record, 0 to 7, if it reads as what belongs there: an object of the space for a pivot of
    /// the profile, and behind the last pivot no bytes.
    fn record(&self, place: usize, profile: &Profile) -> Option<&[u8]>
        requires place { place < RECORDS }
        requires fits { IsTrue (fits profile.now.space) }
        ensures { MatchOption result (IsPivot profile.now.space profile.now.pivots place (pivot_at (pivot_pages self.now.first self.now.second) place) → ⊥)
            (λ object. (pivot_at (pivot_pages self.now.first self.now.second) place ≡ Some object.now)
            × IsPivot profile.now.space profile.now.pivots place (Some object.now)) }
    {
        let object = read_pivot(self.page_of(place), place % RECORDS_PER_PAGE)?;
        if !belongs(profile, place, object) {
            return None;
        }
        Some(object)
    }

    /// The page of a record.
    fn page_of(&self, place: usize) -> &[u8; PAGE_SIZE]
        requires { place < RECORDS }
        ensures { result.now ≡ pivot_pages self.now.first self.now.second (PIVOT_PAGE + place / RECORDS_PER_PAGE) }
    {
        if place < RECORDS_PER_PAGE {
            &self.first
        } else {
            &self.second
        }
    }
}

/// Whether the object may stand in this record of a file with this profile.
fn belongs(profile: &Profile, place: usize, object: &[u8]) -> bool
    requires { IsTrue (fits profile.now.space) }
    ensures { IsTrue result ↔ IsPivot profile.now.space profile.now.pivots place (Some object.now) }
{
    if place < profile.pivots as usize {
        return admits(&profile.space, object);
    }
    object.is_empty()
}

/// The pivots of the profile, from their pages. Damaged comes exactly if a record doesn't read as what belongs
/// there; it names the record's page and the rule `pivot`.
pub(crate) fn pivots_of(
    alloc: Global,
    profile: &Profile,
    pages: &PivotPages,
) -> Result<Vec<Bytes>, OpenError>
    requires in_range { IsInRange profile.now }
    ensures exact { MatchResult result (λ pivots. HoldsPivots profile.now (pivot_pages pages.now.first pages.now.second) pivots.items)
        (RefusesPivots profile.now (pivot_pages pages.now.first pages.now.second)) }
    ensures no_fault { IfErr result (λ e. e ≡ refusal.DiskFault → ⊥) }
{
    let many = profile.pivots as usize;
    let mut pivots = Vec::new(alloc);
    for place in 0..many {
        let Some(object) = pages.record(place, profile) else {
            return Err(bad_record(place));
        };
        add_pivot(alloc, &mut pivots, object)?;
    }
    refuse_others(profile, pages)?;
    Ok(pivots)
}

/// Refuses if a record behind the last pivot doesn't read as no bytes.
fn refuse_others(profile: &Profile, pages: &PivotPages) -> Result<(), OpenError>
    requires in_range { IsInRange profile.now }
    ensures exact { MatchResult result
        (λ _. (place : ℕ) → profile.now.pivots ≤ place → place < RECORDS → pivot_at (pivot_pages pages.now.first pages.now.second) place ≡ Some [])
        (RefusesPivots profile.now (pivot_pages pages.now.first pages.now.second)) }
    ensures no_fault { IfErr result (λ e. e ≡ refusal.DiskFault → ⊥) }
{
    for place in profile.pivots as usize..RECORDS {
        if pages.record(place, profile).is_none() {
            return Err(bad_record(place));
        }
    }
    Ok(())
}

/// The damage of a record.
fn bad_record(place: usize) -> OpenError
    requires { place < RECORDS }
    ensures { result ≡ refusal.Damaged (PIVOT_PAGE + place / RECORDS_PER_PAGE) rule.Pivot }
{
    OpenError::Damaged {
        page: PIVOT_PAGE + (place / RECORDS_PER_PAGE) as u32,
        rule: Rule::Pivot,
    }
}

/// Adds a copy of the object.
fn add_pivot(alloc: Global, pivots: &mut Vec<Bytes>, object: &[u8]) -> Result<(), Memory>
    ensures { OnOk result (pivots.new.items ≡ pivots.old.items ++ (object.now ∷ [])) }
{
    pivots.push(Bytes::of(alloc, object)?)?;
    Ok(())
}
