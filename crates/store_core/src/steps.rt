//! The steps of an opening over the journal: the change that it holds is finished, and the profile and the pivots
//! are read.
ghost use Rattle.std.specs.Prelude.{◌≡◌, ◌⊎◌, ℕ, [], List, false, IsTrue, IfOk, OnOk, MatchResult, All, length};
ghost use Rattle.metrics_builtin.specs.Space.{IsValid};
ghost use Rattle.spb_edge.specs.Calls.{StaysKnown};
ghost use Rattle.spb_edge.specs.Crash.{IsDurable, CrashesLeaveOnly};
ghost use Rattle.redo_journal.specs.Pages.{page};
ghost use Rattle.redo_journal.specs.Redo.{RecoversTo, has_open_gate};
ghost use Rattle.redo_journal.specs.Journal.{disk_of, total_of, staged_of, HasPages};
ghost use Rattle.spb_defs.specs.State.{State};
ghost use Rattle.store_check.specs.Layout.{file_pages};
ghost use Rattle.store_check.specs.Profile.{IsInRange};
ghost use Rattle.store_check.specs.Stands.{Stands, IsPaged};
ghost use Rattle.store_check.specs.Damage.{IsMarked};
ghost use Rattle.store_core.specs.Content.{HoldsProfile, HoldsPivots, RefusesPivots, HoldsContent, RefusesContent, IsSound};
ghost use Rattle.store_core.specs.Errors.{CountsOpenFault};
ghost use Rattle.store_core.specs.Opening.{RecoversChange, IsStarted, Refuses};

use crate::OpenError;
use crate::content::{PIVOT_PAGE, PROFILE_PAGE, PivotPages, pivots_of, profile_of};
use page_laws::{PAGE_SIZE, Rule};
use redo_journal::layout::HEADER_PAGE;
use redo_journal::{Journal, RecoverError};
use spb_edge::{Bytes, Disk};
use std::alloc::Global;
use store_check::Profile;

/// What the pages before the journal hold.
#[derive(Drop)]
pub(crate) struct StoreContent {
    pub(crate) profile: Profile,
    pub(crate) pivots: Vec<Bytes>,
}

/// Finishes the change that the journal holds, and reads the profile and the pivots.
pub(crate) fn start_journal<D: Disk>(
    alloc: Global,
    journal: &mut Journal<'_, D>,
    total: u32,
) -> Result<StoreContent, OpenError>
    requires pages { HasPages D.size_of journal.old }
    requires total { total_of journal.old ≡ total }
    requires none { staged_of journal.old ≡ [] }
    ensures starts { IsTrue (D.is_known (disk_of journal.old)) → IsPaged total (D.image (disk_of journal.old))
        → IsMarked (D.image (disk_of journal.old))
        → MatchResult result (λ content. IsStarted (D.image (disk_of journal.old)) (D.image (disk_of journal.new)) content.profile content.pivots.items)
        (λ e. Refuses e (D.image (disk_of journal.old))) }
    ensures sound { IfOk result (λ content. IsSound total content.profile content.pivots.items) }
    ensures any_start { IsTrue (D.is_known (disk_of journal.old)) → IsTrue (D.knows_crashes (disk_of journal.old)) → (s : State)
        → Stands (D.image (disk_of journal.old)) s
        → CrashesLeaveOnly D.moment D.crash_states_since (disk_of journal.old) (disk_of journal.new)
        (λ c. D.crash_states (disk_of journal.old) c ⊎ Stands c s) }
    ensures kept { IsTrue (D.is_known (disk_of journal.old)) → IsTrue (D.knows_crashes (disk_of journal.old))
        → IfOk result (λ content. IsDurable (D.image (disk_of journal.new)) (D.crash_states (disk_of journal.new))) }
    ensures none { IfOk result (λ content. staged_of journal.new ≡ []) }
    ensures pages { HasPages D.size_of journal.new }
    ensures total { total_of journal.new ≡ total }
    ensures told { StaysKnown D.is_known D.knows_crashes (disk_of journal.old) (disk_of journal.new) }
    ensures fault { CountsOpenFault result (D.faults (disk_of journal.old)) (D.faults (disk_of journal.new)) }
    ensures name { journal.new.disk.ghost_name ≡ journal.old.disk.ghost_name }
{
    recover_change(journal)?;
    read_content(alloc, journal, total)
}

/// Finishes the change that the journal holds. Damaged comes exactly if the gate is open over a header with a field
/// out of its range; it names the header's page and the rule `journal`.
#[tactic(auto, using(crate::proofs::Starting::first_bad))]
fn recover_change<D: Disk>(journal: &mut Journal<'_, D>) -> Result<(), OpenError>
    requires pages { HasPages D.size_of journal.old }
    requires none { staged_of journal.old ≡ [] }
    ensures recovers { IsTrue (D.is_known (disk_of journal.old))
        → RecoversChange (total_of journal.old) result (D.image (disk_of journal.old)) (D.image (disk_of journal.new)) }
    ensures any_start { IsTrue (D.is_known (disk_of journal.old)) → IsTrue (D.knows_crashes (disk_of journal.old))
        → (marks : List ℕ) (home : ℕ → List ℕ) → RecoversTo (total_of journal.old) (D.image (disk_of journal.old)) marks home
        → CrashesLeaveOnly D.moment D.crash_states_since (disk_of journal.old) (disk_of journal.new)
        (λ c. D.crash_states (disk_of journal.old) c ⊎ RecoversTo (total_of journal.old) c marks home) }
    ensures kept { IsTrue (D.is_known (disk_of journal.old)) → IsTrue (D.knows_crashes (disk_of journal.old))
        → OnOk result (IsDurable (D.image (disk_of journal.new)) (D.crash_states (disk_of journal.new))) }
    ensures none { OnOk result (staged_of journal.new ≡ []) }
    ensures pages { HasPages D.size_of journal.new }
    ensures total { total_of journal.new ≡ total_of journal.old }
    ensures told { StaysKnown D.is_known D.knows_crashes (disk_of journal.old) (disk_of journal.new) }
    ensures fault { CountsOpenFault result (D.faults (disk_of journal.old)) (D.faults (disk_of journal.new)) }
    ensures name { journal.new.disk.ghost_name ≡ journal.old.disk.ghost_name }
{
    match journal.recover() {
        Ok(()) => Ok(()),
        Err(RecoverError::DiskFault) => Err(OpenError::DiskFault),
        Err(RecoverError::BadHeader(_)) => Err(OpenError::Damaged {
            page: HEADER_PAGE,
            rule: Rule::Journal,
        }),
    }
}

/// The profile and the pivots. Three device calls.
fn read_content<D: Disk>(
    alloc: Global,
    journal: &mut Journal<'_, D>,
    total: u32,
) -> Result<StoreContent, OpenError>
    requires pages { HasPages D.size_of journal.old }
    requires total { total_of journal.old ≡ total }
    ensures exact { IsTrue (D.is_known (disk_of journal.old))
        → MatchResult result (λ content. HoldsContent total (page (D.image (disk_of journal.old))) content.profile content.pivots.items)
        (RefusesContent total (page (D.image (disk_of journal.old)))) }
    ensures sound { IfOk result (λ content. IsSound total content.profile content.pivots.items) }
    ensures quiet { D.quiet (disk_of journal.old) (disk_of journal.new) }
    ensures image { IsTrue (D.is_known (disk_of journal.old)) → D.image (disk_of journal.new) ≡ D.image (disk_of journal.old) }
    ensures staged { (staged_of journal.new ≡ staged_of journal.old) × (total_of journal.new ≡ total) }
    ensures pages { HasPages D.size_of journal.new }
    ensures told { StaysKnown D.is_known D.knows_crashes (disk_of journal.old) (disk_of journal.new) }
    ensures fault { CountsOpenFault result (D.faults (disk_of journal.old)) (D.faults (disk_of journal.new)) }
    ensures name { journal.new.disk.ghost_name ≡ journal.old.disk.ghost_name }
{
    let profile = read_profile_page(journal, total)?;
    let pivots = read_pivot_pages(alloc, journal, &profile)?;
    Ok(StoreContent { profile, pivots })
}

/// The profile. One device call.
fn read_profile_page<D: Disk>(
    journal: &mut Journal<'_, D>,
    total: u32,
) -> Result<Profile, OpenError>
    requires pages { HasPages D.size_of journal.old }
    requires total { total_of journal.old ≡ total }
    ensures exact { IsTrue (D.is_known (disk_of journal.old))
        → MatchResult result (HoldsProfile total (page (D.image (disk_of journal.old))))
        (RefusesContent total (page (D.image (disk_of journal.old)))) }
    ensures fits { IfOk result (λ profile. IsInRange profile × (file_pages profile.cap ≡ total)) }
    ensures quiet { D.quiet (disk_of journal.old) (disk_of journal.new) }
    ensures image { IsTrue (D.is_known (disk_of journal.old)) → D.image (disk_of journal.new) ≡ D.image (disk_of journal.old) }
    ensures staged { (staged_of journal.new ≡ staged_of journal.old) × (total_of journal.new ≡ total) }
    ensures pages { HasPages D.size_of journal.new }
    ensures told { StaysKnown D.is_known D.knows_crashes (disk_of journal.old) (disk_of journal.new) }
    ensures fault { CountsOpenFault result (D.faults (disk_of journal.old)) (D.faults (disk_of journal.new)) }
    ensures name { journal.new.disk.ghost_name ≡ journal.old.disk.ghost_name }
{
    let mut page = [0; PAGE_SIZE];
    journal.read_page(PROFILE_PAGE, &mut page)?;
    profile_of(&page, total)
}

/// The pivots of the profile. Two device calls.
fn read_pivot_pages<D: Disk>(
    alloc: Global,
    journal: &mut Journal<'_, D>,
    profile: &Profile,
) -> Result<Vec<Bytes>, OpenError>
    requires pages { HasPages D.size_of journal.old }
    requires in_range { IsInRange profile.now }
    ensures exact { IsTrue (D.is_known (disk_of journal.old))
        → MatchResult result (λ pivots. HoldsPivots profile.now (page (D.image (disk_of journal.old))) pivots.items)
        (RefusesPivots profile.now (page (D.image (disk_of journal.old)))) }
    ensures count { IfOk result (λ pivots. length pivots.items ≡ profile.now.pivots) }
    ensures objects { IfOk result (λ pivots. All (IsValid profile.now.space) pivots.items) }
    ensures quiet { D.quiet (disk_of journal.old) (disk_of journal.new) }
    ensures image { IsTrue (D.is_known (disk_of journal.old)) → D.image (disk_of journal.new) ≡ D.image (disk_of journal.old) }
    ensures staged { (staged_of journal.new ≡ staged_of journal.old) × (total_of journal.new ≡ total_of journal.old) }
    ensures pages { HasPages D.size_of journal.new }
    ensures told { StaysKnown D.is_known D.knows_crashes (disk_of journal.old) (disk_of journal.new) }
    ensures fault { CountsOpenFault result (D.faults (disk_of journal.old)) (D.faults (disk_of journal.new)) }
    ensures name { journal.new.disk.ghost_name ≡ journal.old.disk.ghost_name }
{
    let mut first = [0; PAGE_SIZE];
    journal.read_page(PIVOT_PAGE, &mut first)?;
    let mut second = [0; PAGE_SIZE];
    journal.read_page(PIVOT_PAGE + 1, &mut second)?;
    pivots_of(alloc, profile, &PivotPages { first, second })
}
