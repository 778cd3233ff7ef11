//! The pages of a change over a journal.
ghost use Rattle.std.specs.Prelude.{◌≡◌, ◌==◌, ◌||◌, ◌<◌, [], List, ℕ, Bool, true, false, IsTrue, OnOk, Ok, length};
ghost use Rattle.std.specs.Map.{keys_of, lookup};
ghost use Rattle.spb_edge.specs.Calls.{StaysKnown};
ghost use Rattle.spb_edge.specs.Crash.{IsDurable, CrashesLeaveOnly};
ghost use Rattle.spb_edge.specs.Fault.{CountsError};
ghost use Rattle.page_laws.specs.Errors.{CountsFault};
ghost use Rattle.page_laws.specs.Pages.{is_among, HasRoom, JoinsAtMost};
ghost use Rattle.redo_journal.specs.Pages.{page, IsHome};
ghost use Rattle.redo_journal.specs.Redo.{has_open_gate, RecoversTo, overlay};
ghost use Rattle.redo_journal.specs.Change.{IsBeforeOrAfter};
ghost use Rattle.redo_journal.specs.Journal.{disk_of, total_of, staged_of, HasPages};
ghost use Rattle.page_store.specs.PageStore.{reads_after, HasMemory};

use page_laws::{PAGE_SIZE, PageError};
use redo_journal::{DiskFault, Journal, staging_joins_one, staging_lays_one};
use spb_edge::Disk;

/// Fills `into` with page `n`: the staged one if there is one, else the disk's, by one device call.
pub(crate) fn get_page<D: Disk>(
    journal: &mut Journal<'_, D>,
    n: u32,
    into: &mut [u8; PAGE_SIZE],
) -> Result<(), PageError>
    requires pages { HasPages D.size_of journal.old }
    requires there { n < total_of journal.old }
    ensures data { IsTrue (D.is_known (disk_of journal.old))
        → OnOk result (into.new ≡ overlay (staged_of journal.old) (page (D.image (disk_of journal.old))) n) }
    ensures memory { HasMemory result }
    ensures quiet { D.quiet (disk_of journal.old) (disk_of journal.new) }
    ensures image { IsTrue (D.is_known (disk_of journal.old)) → D.image (disk_of journal.new) ≡ D.image (disk_of journal.old) }
    ensures reads { IsTrue (D.is_known (disk_of journal.old))
        → D.reads (disk_of journal.new) ≡ reads_after (lookup (λ m. m == n) (staged_of journal.old)) (D.reads (disk_of journal.old)) }
    ensures staged { (staged_of journal.new ≡ staged_of journal.old) × (total_of journal.new ≡ total_of journal.old) }
    ensures pages { HasPages D.size_of journal.new }
    ensures told { StaysKnown D.is_known D.knows_crashes (disk_of journal.old) (disk_of journal.new) }
    ensures fault { CountsFault result (D.faults (disk_of journal.old)) (D.faults (disk_of journal.new)) }
    ensures name { journal.new.disk.ghost_name ≡ journal.old.disk.ghost_name }
{
    if let Some(page) = journal.staged_page(n) {
        into.copy_from_slice(page);
        return Ok(());
    }
    match journal.read_page(n, into) {
        Ok(()) => Ok(()),
        Err(DiskFault) => Err(PageError::Fault),
    }
}

/// Stages page `n`, for which there is room.
pub(crate) fn put_page<D: Disk>(journal: &mut Journal<'_, D>, n: u32, page: &[u8; PAGE_SIZE])
    requires home { IsHome (total_of journal.old) n }
    requires room { HasRoom n (keys_of (staged_of journal.old)) }
    ensures here { (pages : ℕ → List ℕ) → overlay (staged_of journal.new) pages n ≡ page.now }
    ensures others { (pages : ℕ → List ℕ) (m : ℕ) → (m ≡ n → ⊥) → overlay (staged_of journal.new) pages m ≡ overlay (staged_of journal.old) pages m }
    ensures put { JoinsAtMost n (keys_of (staged_of journal.old)) (keys_of (staged_of journal.new)) }
    ensures joins { (m : ℕ) → is_among m (keys_of (staged_of journal.new)) ≡ (n == m || is_among m (keys_of (staged_of journal.old))) }
    ensures some { 0 < length (staged_of journal.new) }
    ensures total { total_of journal.new ≡ total_of journal.old }
    ensures disk { disk_of journal.new ≡ disk_of journal.old }
    ensures name { journal.new.disk.ghost_name ≡ journal.old.disk.ghost_name }
{
    staging_joins_one();
    staging_lays_one();
    let Ok(()) = journal.stage(n, page) else {
        unreachable!()
    };
}

/// Ends a change: commits and settles the staged pages, if there are any, and leaves none staged.
pub(crate) fn end_change<D: Disk>(
    journal: &mut Journal<'_, D>,
    has_put: bool,
) -> Result<(), DiskFault>
    requires pages { HasPages D.size_of journal.old }
    requires some { has_put ≡ true → 0 < length (staged_of journal.old) }
    requires none { has_put ≡ false → staged_of journal.old ≡ [] }
    ensures any_moment { IsTrue (D.is_known (disk_of journal.old)) → IsTrue (D.knows_crashes (disk_of journal.old))
        → IsDurable (D.image (disk_of journal.old)) (D.crash_states (disk_of journal.old)) → (marks : List ℕ) (home : ℕ → List ℕ)
        → RecoversTo (total_of journal.old) (D.image (disk_of journal.old)) marks home → has_open_gate (D.image (disk_of journal.old)) ≡ false
        → CrashesLeaveOnly D.moment D.crash_states_since (disk_of journal.old) (disk_of journal.new)
        (IsBeforeOrAfter (total_of journal.old) (staged_of journal.old) marks home) }
    ensures commits { IsTrue (D.is_known (disk_of journal.old)) → (marks : List ℕ) (home : ℕ → List ℕ)
        → RecoversTo (total_of journal.old) (D.image (disk_of journal.old)) marks home → has_open_gate (D.image (disk_of journal.old)) ≡ false
        → OnOk result (RecoversTo (total_of journal.old) (D.image (disk_of journal.new)) marks (overlay (staged_of journal.old) home)) }
    ensures closed { IsTrue (D.is_known (disk_of journal.old)) → has_open_gate (D.image (disk_of journal.old)) ≡ false
        → OnOk result (has_open_gate (D.image (disk_of journal.new)) ≡ false) }
    ensures kept { IsTrue (D.is_known (disk_of journal.old)) → IsTrue (D.knows_crashes (disk_of journal.old))
        → (staged_of journal.old ≡ [] → IsDurable (D.image (disk_of journal.old)) (D.crash_states (disk_of journal.old)))
        → OnOk result (IsDurable (D.image (disk_of journal.new)) (D.crash_states (disk_of journal.new))) }
    ensures silent { staged_of journal.old ≡ [] → (disk_of journal.new ≡ disk_of journal.old) × (result ≡ Ok tt) }
    ensures others { IsTrue (D.is_known (disk_of journal.old)) → (n : ℕ) → IsHome (total_of journal.old) n
        → is_among n (keys_of (staged_of journal.old)) ≡ false
        → page (D.image (disk_of journal.new)) n ≡ page (D.image (disk_of journal.old)) n }
    ensures none { staged_of journal.new ≡ [] }
    ensures total { total_of journal.new ≡ total_of journal.old }
    ensures pages { HasPages D.size_of journal.new }
    ensures reads { IsTrue (D.is_known (disk_of journal.old)) → D.reads (disk_of journal.new) ≡ D.reads (disk_of journal.old) }
    ensures told { StaysKnown D.is_known D.knows_crashes (disk_of journal.old) (disk_of journal.new) }
    ensures fault { CountsError result (D.faults (disk_of journal.old)) (D.faults (disk_of journal.new)) }
    ensures name { journal.new.disk.ghost_name ≡ journal.old.disk.ghost_name }
{
    if !has_put {
        return Ok(());
    }
    let done = write_change(journal);
    journal.clear();
    done
}

/// Commits and settles the staged pages, at least one.
fn write_change<D: Disk>(journal: &mut Journal<'_, D>) -> Result<(), DiskFault>
    requires pages { HasPages D.size_of journal.old }
    requires some { 0 < length (staged_of journal.old) }
    ensures any_moment { IsTrue (D.is_known (disk_of journal.old)) → IsTrue (D.knows_crashes (disk_of journal.old))
        → IsDurable (D.image (disk_of journal.old)) (D.crash_states (disk_of journal.old)) → (marks : List ℕ) (home : ℕ → List ℕ)
        → RecoversTo (total_of journal.old) (D.image (disk_of journal.old)) marks home → has_open_gate (D.image (disk_of journal.old)) ≡ false
        → CrashesLeaveOnly D.moment D.crash_states_since (disk_of journal.old) (disk_of journal.new)
        (IsBeforeOrAfter (total_of journal.old) (staged_of journal.old) marks home) }
    ensures commits { IsTrue (D.is_known (disk_of journal.old)) → (marks : List ℕ) (home : ℕ → List ℕ)
        → RecoversTo (total_of journal.old) (D.image (disk_of journal.old)) marks home → has_open_gate (D.image (disk_of journal.old)) ≡ false
        → OnOk result (RecoversTo (total_of journal.old) (D.image (disk_of journal.new)) marks (overlay (staged_of journal.old) home)) }
    ensures closed { IsTrue (D.is_known (disk_of journal.old)) → OnOk result (has_open_gate (D.image (disk_of journal.new)) ≡ false) }
    ensures kept { IsTrue (D.is_known (disk_of journal.old)) → IsTrue (D.knows_crashes (disk_of journal.old))
        → OnOk result (IsDurable (D.image (disk_of journal.new)) (D.crash_states (disk_of journal.new))) }
    ensures others { IsTrue (D.is_known (disk_of journal.old)) → (n : ℕ) → IsHome (total_of journal.old) n
        → is_among n (keys_of (staged_of journal.old)) ≡ false
        → page (D.image (disk_of journal.new)) n ≡ page (D.image (disk_of journal.old)) n }
    ensures total { total_of journal.new ≡ total_of journal.old }
    ensures pages { HasPages D.size_of journal.new }
    ensures reads { IsTrue (D.is_known (disk_of journal.old)) → D.reads (disk_of journal.new) ≡ D.reads (disk_of journal.old) }
    ensures told { StaysKnown D.is_known D.knows_crashes (disk_of journal.old) (disk_of journal.new) }
    ensures fault { CountsError result (D.faults (disk_of journal.old)) (D.faults (disk_of journal.new)) }
    ensures name { journal.new.disk.ghost_name ≡ journal.old.disk.ghost_name }
{
    journal.commit()?;
    journal.settle()
}
