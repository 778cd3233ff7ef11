//! The opening of a store's file, up to its profile and its pivots.
ghost use Rattle.std.specs.Prelude.{◌≡◌, ◌⊎◌, ◌≤◌, ◌*◌, ℕ, IsTrue, IfOk, IfErr, MatchResult};
ghost use Rattle.spb_edge.specs.Calls.{StaysKnown};
ghost use Rattle.spb_edge.specs.Crash.{IsDurable, CrashesLeaveOnly};
ghost use Rattle.spb_defs.specs.State.{State};
ghost use Rattle.redo_journal.specs.declared.layout.TheConstants.{PAGE_SIZE};
ghost use Rattle.store_check.specs.Layout.{file_pages};
ghost use Rattle.store_check.specs.Stands.{Stands};
ghost use Rattle.store_core.specs.Errors.{CountsRefusal};
ghost use Rattle.store_core.specs.Opening.{IsStarted, Refuses};

use crate::OpenError;
use crate::paging::count_pages;
use crate::steps::start_journal;
use redo_journal::Journal;
use spb_edge::{Bytes, Disk};
use std::alloc::Global;
use store_check::Profile;

/// A store's file of which the journal's change is finished, and the profile and the pivots are read. What its
/// slots hold isn't read yet.
///
/// It keeps the reference that it was made with, and hands it back by [`into_inner`](Opening::into_inner).
/// Dropping it makes no device call. What the calls say of the disk's bytes holds for disks whose bytes are
/// known.
#[derive(Drop)]
pub struct Opening<'a, D: Disk> {
    journal: Journal<'a, D>,
    profile: Profile,
    pivots: Vec<Bytes>,
}

/// The parts of an opening.
#[derive(Drop)]
pub struct OpeningParts<'a, D: Disk> {
    /// The journal over the disk, with no page staged.
    pub journal: Journal<'a, D>,
    /// The profile.
    pub profile: Profile,
    /// The pivots, as many as the profile says.
    pub pivots: Vec<Bytes>,
}

impl<'a, D: Disk> Opening<'a, D> {
    ghost use Rattle.store_core.specs.Parts.{disk_in, profile_of, pivots_of, IsReady};

    /// Finishes the change that the journal holds, and reads the profile and the pivots.
    ///
    /// NotStore comes exactly if the file is too short for a store or has another magic or format, else
    /// Damaged exactly if a rule is broken that speaks of no root and no slot; it names a page that breaks the
    /// rule that it names. DiskFault comes only if the disk counted a fault in this call. A crash during the call
    /// leaves an image that stands for the same state. Seven device calls, and if the journal holds a change those
    /// that finish it.
    pub fn start(alloc: Global, disk: &'a mut D) -> Result<Self, OpenError>
        ensures opens { IsTrue (D.is_known disk.old) → IfOk result (λ opening. IsStarted (D.image disk.old) (D.image (disk_in opening)) (profile_of opening) (pivots_of opening)) }
        ensures refuses { IsTrue (D.is_known disk.old) → IfErr result (λ e. Refuses e (D.image disk.old)) }
        ensures ready { IfOk result (IsReady D.size_of) }
        ensures size { IfOk result (λ opening. D.size_of (disk_in opening) ≡ PAGE_SIZE * file_pages (profile_of opening).cap) }
        ensures any_start { IsTrue (D.is_known disk.old) → IsTrue (D.knows_crashes disk.old) → (s : State) → Stands (D.image disk.old) s
            → IfOk result (λ opening. CrashesLeaveOnly D.moment D.crash_states_since disk.old (disk_in opening)
            (λ c. D.crash_states disk.old c ⊎ Stands c s)) }
        ensures any_moment { IsTrue (D.is_known disk.old) → IsTrue (D.knows_crashes disk.old) → IsDurable (D.image disk.old) (D.crash_states disk.old)
            → (s : State) → Stands (D.image disk.old) s
            → IfOk result (λ opening. CrashesLeaveOnly D.moment D.crash_states_since disk.old (disk_in opening) (λ c. Stands c s)) }
        ensures kept { IsTrue (D.is_known disk.old) → IsTrue (D.knows_crashes disk.old)
            → IfOk result (λ opening. IsDurable (D.image (disk_in opening)) (D.crash_states (disk_in opening))) }
        ensures told { IfOk result (λ opening. StaysKnown D.is_known D.knows_crashes disk.old (disk_in opening)) }
        ensures fault { IfOk result (λ opening. D.faults disk.old ≤ D.faults (disk_in opening)) }
        ensures name { IfOk result (λ opening. opening.journal.disk.ghost_name ≡ disk.entry.ghost_name) }
    {
        match Opening::start_or_back(alloc, disk) {
            Ok(opening) => Ok(opening),
            Err(back) => {
                let (refusal, _disk) = back;
                Err(refusal)
            }
        }
    }

    /// As [`start`](Opening::start), but a refusal hands the disk back, so that a caller's contract can still speak
    /// of it.
    pub fn start_or_back(alloc: Global, disk: &'a mut D) -> Result<Self, (OpenError, &'a mut D)>
        ensures opens { IsTrue (D.is_known disk.old) → IfOk result (λ opening. IsStarted (D.image disk.old) (D.image (disk_in opening)) (profile_of opening) (pivots_of opening)) }
        ensures refuses { IsTrue (D.is_known disk.old) → IfErr result (λ back. Refuses back.0 (D.image disk.old)) }
        ensures ready { IfOk result (IsReady D.size_of) }
        ensures size { IfOk result (λ opening. D.size_of (disk_in opening) ≡ PAGE_SIZE * file_pages (profile_of opening).cap) }
        ensures any_start { IsTrue (D.is_known disk.old) → IsTrue (D.knows_crashes disk.old) → (s : State) → Stands (D.image disk.old) s
            → MatchResult result
            (λ opening. CrashesLeaveOnly D.moment D.crash_states_since disk.old (disk_in opening) (λ c. D.crash_states disk.old c ⊎ Stands c s))
            (λ back. CrashesLeaveOnly D.moment D.crash_states_since disk.old back.1.now (λ c. D.crash_states disk.old c ⊎ Stands c s)) }
        ensures any_moment { IsTrue (D.is_known disk.old) → IsTrue (D.knows_crashes disk.old) → IsDurable (D.image disk.old) (D.crash_states disk.old)
            → (s : State) → Stands (D.image disk.old) s
            → MatchResult result (λ opening. CrashesLeaveOnly D.moment D.crash_states_since disk.old (disk_in opening) (λ c. Stands c s))
            (λ back. CrashesLeaveOnly D.moment D.crash_states_since disk.old back.1.now (λ c. Stands c s)) }
        ensures kept { IsTrue (D.is_known disk.old) → IsTrue (D.knows_crashes disk.old)
            → IfOk result (λ opening. IsDurable (D.image (disk_in opening)) (D.crash_states (disk_in opening))) }
        ensures told { MatchResult result (λ opening. StaysKnown D.is_known D.knows_crashes disk.old (disk_in opening))
            (λ back. StaysKnown D.is_known D.knows_crashes disk.old back.1.now) }
        ensures fault { MatchResult result (λ opening. D.faults disk.old ≤ D.faults (disk_in opening))
            (λ back. CountsRefusal back.0 (D.faults disk.old) (D.faults back.1.now)) }
        ensures name { MatchResult result (λ opening. opening.journal.disk.ghost_name ≡ disk.entry.ghost_name)
            (λ back. back.1.ghost_name ≡ disk.entry.ghost_name) }
    {
        let total = match count_pages(disk) {
            Ok(total) => total,
            Err(refusal) => return Err((refusal, disk)),
        };
        let mut journal = match Journal::new_or_back(alloc, disk, total) {
            Ok(journal) => journal,
            Err(back) => {
                let (_memory, disk) = back;
                return Err((OpenError::Memory, disk));
            }
        };
        match start_journal(alloc, &mut journal, total) {
            Ok(content) => Ok(Opening {
                journal,
                profile: content.profile,
                pivots: content.pivots,
            }),
            Err(refusal) => Err((refusal, journal.into_inner())),
        }
    }

    /// The profile. Its numbers are in their ranges.
    pub fn profile(&self) -> &Profile
        ensures { result.now ≡ profile_of self.now }
    {
        &self.profile
    }

    /// The pivots, as many as the profile says. Each is an object of its space.
    pub fn pivots(&self) -> &[Bytes]
        ensures { result.now ≡ pivots_of self.now }
    {
        self.pivots.as_slice()
    }

    /// Hands back the reference that the opening was begun with. No device call is made.
    pub fn into_inner(self) -> &'a mut D
        ensures name { result.ghost_name ≡ self.entry.journal.disk.ghost_name }
        ensures disk { result.now ≡ disk_in self.entry }
    {
        let Opening {
            journal,
            profile: _,
            pivots: _,
        } = self;
        journal.into_inner()
    }

    /// The parts.
    pub fn into_parts(self) -> OpeningParts<'a, D>
        ensures journal { result.journal ≡ self.entry.journal }
        ensures content { (result.profile ≡ profile_of self.entry) × (result.pivots.items ≡ pivots_of self.entry) }
    {
        let Opening {
            journal,
            profile,
            pivots,
        } = self;
        OpeningParts {
            journal,
            profile,
            pivots,
        }
    }
}
