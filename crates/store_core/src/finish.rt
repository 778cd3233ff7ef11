//! The second half of an opening: the slots are read, and the store is made.
ghost use Rattle.std.specs.Prelude.{◌≡◌, ℕ, ◌+◌, ◌<◌, ◌≤◌, [], false, IsTrue, IfOk, IfErr, MatchResult, None, All, length};
ghost use Rattle.metrics_builtin.specs.Space.{IsValid};
ghost use Rattle.spb_edge.specs.Calls.{StaysKnown};
ghost use Rattle.spb_defs.specs.MetricOf.{IsMetricOf};
ghost use Rattle.page_laws.specs.Pages.{is_among};
ghost use Rattle.redo_journal.specs.declared.layout.TheConstants.{FIRST_HOME};
ghost use Rattle.redo_journal.specs.Pages.{page};
ghost use Rattle.redo_journal.specs.Redo.{has_open_gate};
ghost use Rattle.page_store.specs.PageStore.{in_pool, unchanged};
ghost use Rattle.store_check.specs.Layout.{slot_pages as slot_pages_of, pool_pages as pool_pages_of, file_pages};
ghost use Rattle.store_check.specs.Profile.{IsInRange};
ghost use Rattle.store_check.specs.Stands.{are_empty as have_no_trees};
ghost use Rattle.store_check.specs.Opened.{state_in};
ghost use Rattle.open_store.specs.SlotChange.{IsReady as IsShut};
ghost use Rattle.open_store.specs.Store.{IsStore, IsInState, store_of};
ghost use Rattle.page_laws.specs.declared.rule.Rule.TheVariants as rule;
ghost use Rattle.store_core.specs.declared.content.TheConstants.{PROFILE_PAGE};
ghost use Rattle.store_core.specs.declared.errors.OpenError.TheVariants as refusal;
ghost use Rattle.store_core.specs.Errors.{CountsRefusal, CountsOpenFault};
ghost use Rattle.store_core.specs.Finish.{IsOpened, IsLastRefusal, RefusesOpened, HasSameRange};

use crate::content::PROFILE_PAGE;
use crate::slots::{SlotContents, free_pages, lists_of, read_slots};
use crate::{OpenError, Opening, OpeningParts};
use metric_laws::Metric;
use object_file::ObjectFile;
use open_store::Store;
use page_laws::{Root, Rule};
use page_store::PageStore;
use redo_journal::layout::FIRST_HOME;
use row_list::RowList;
use spb_edge::{Bytes, Disk};
use std::alloc::Global;
use store_check::{Profile, pool_pages, slot_pages};

impl<'a, D: Disk> Opening<'a, D> {
    ghost use Rattle.store_core.specs.Parts.{disk_in, profile_of, pivots_of, IsReady};

    /// Reads the slots and makes the store, whose metric is that of the profile's space.
    ///
    /// Damaged comes exactly if a tree isn't empty, or else a slot below the cap reads as neither filled nor free,
    /// holds bytes that are no object, or holds the collection and id of a lower slot; it names page 1 and the rule
    /// `page`, or else the page of such a slot and the rule `slot`. DiskFault comes only if the disk counted a fault
    /// in this call. The disk is only read, each page of slots once. It measures the distance of each object to
    /// each pivot, and puts the rows of each collection in order of id.
    pub fn finish<M: Metric>(self, alloc: Global, metric: M) -> Result<Store<'a, D, M>, OpenError>
        requires ready { IsReady D.size_of self }
        requires closed { IsTrue (D.is_known (disk_in self)) → has_open_gate (D.image (disk_in self)) ≡ false }
        requires metric { IsMetricOf (M.admitted metric) (M.dist metric) (profile_of self).space }
        ensures opens { IsTrue (D.is_known (disk_in self.entry)) → IsOpened (D.image (disk_in self.entry)) (profile_of self.entry) (pivots_of self.entry)
            → IfOk result (λ store. IsInState D.is_known D.image store (state_in (page (D.image (disk_in self.entry))) (profile_of self.entry))) }
        ensures refuses { IsTrue (D.is_known (disk_in self.entry)) → IsOpened (D.image (disk_in self.entry)) (profile_of self.entry) (pivots_of self.entry)
            → IfErr result (λ e. RefusesOpened e (D.image (disk_in self.entry))) }
        ensures kinds { IfErr result IsLastRefusal }
        ensures sound { IfOk result (IsStore D.is_known D.image M.admitted M.dist) }
        ensures fresh { IfOk result (λ store. store.spent ≡ None) }
        ensures setup { IfOk result (λ store. (store.profile ≡ profile_of self.entry) × (store.pivots ≡ pivots_of self.entry) × (store.metric ≡ metric)) }
        ensures quiet { IfOk result (λ store. D.quiet (disk_in self.entry) store.pages.disk) }
        ensures told { IfOk result (λ store. StaysKnown D.is_known D.knows_crashes (disk_in self.entry) store.pages.disk) }
        ensures fault { IfOk result (λ store. D.faults (disk_in self.entry) ≤ D.faults store.pages.disk) }
        ensures name { IfOk result (λ store. store.pages.name ≡ self.entry.journal.disk.ghost_name) }
    {
        match self.finish_or_back(alloc, metric) {
            Ok(store) => Ok(store),
            Err(back) => {
                let (refusal, _disk) = back;
                Err(refusal)
            }
        }
    }

    /// As [`finish`](Opening::finish), but a refusal hands the disk back, so that a caller's contract can still speak
    /// of it.
    pub fn finish_or_back<M: Metric>(
        self,
        alloc: Global,
        metric: M,
    ) -> Result<Store<'a, D, M>, (OpenError, &'a mut D)>
        requires ready { IsReady D.size_of self }
        requires closed { IsTrue (D.is_known (disk_in self)) → has_open_gate (D.image (disk_in self)) ≡ false }
        requires metric { IsMetricOf (M.admitted metric) (M.dist metric) (profile_of self).space }
        ensures opens { IsTrue (D.is_known (disk_in self.entry)) → IsOpened (D.image (disk_in self.entry)) (profile_of self.entry) (pivots_of self.entry)
            → IfOk result (λ store. IsInState D.is_known D.image store (state_in (page (D.image (disk_in self.entry))) (profile_of self.entry))) }
        ensures refuses { IsTrue (D.is_known (disk_in self.entry)) → IsOpened (D.image (disk_in self.entry)) (profile_of self.entry) (pivots_of self.entry)
            → IfErr result (λ back. RefusesOpened back.0 (D.image (disk_in self.entry))) }
        ensures kinds { IfErr result (λ back. IsLastRefusal back.0) }
        ensures sound { IfOk result (IsStore D.is_known D.image M.admitted M.dist) }
        ensures fresh { IfOk result (λ store. store.spent ≡ None) }
        ensures setup { IfOk result (λ store. (store.profile ≡ profile_of self.entry) × (store.pivots ≡ pivots_of self.entry) × (store.metric ≡ metric)) }
        ensures quiet { MatchResult result (λ store. D.quiet (disk_in self.entry) store.pages.disk) (λ back. D.quiet (disk_in self.entry) back.1.now) }
        ensures told { MatchResult result (λ store. StaysKnown D.is_known D.knows_crashes (disk_in self.entry) store.pages.disk)
            (λ back. StaysKnown D.is_known D.knows_crashes (disk_in self.entry) back.1.now) }
        ensures fault { MatchResult result (λ store. D.faults (disk_in self.entry) ≤ D.faults store.pages.disk)
            (λ back. CountsRefusal back.0 (D.faults (disk_in self.entry)) (D.faults back.1.now)) }
        ensures name { MatchResult result (λ store. store.pages.name ≡ self.entry.journal.disk.ghost_name)
            (λ back. back.1.ghost_name ≡ self.entry.journal.disk.ghost_name) }
    {
        let OpeningParts {
            journal,
            profile,
            pivots,
        } = self.into_parts();
        if !are_empty(&profile.roots) {
            return Err((has_tree(), journal.into_inner()));
        }
        let first = FIRST_HOME + slot_pages(profile.cap);
        let count = pool_pages(profile.cap);
        let mut pages = match PageStore::new_or_back(alloc, journal, first, count, &[]) {
            Ok(pages) => pages,
            Err(back) => {
                let (_memory, disk) = back;
                return Err((OpenError::Memory, disk));
            }
        };
        match load_objects(alloc, &mut pages, &profile, pivots.as_slice(), metric) {
            Ok(loaded) => Ok(Store::of_parts(
                pages,
                loaded.objects,
                loaded.lists,
                pivots,
                profile,
                metric,
            )),
            Err(refusal) => Err((refusal, pages.into_inner())),
        }
    }
}

/// Whether all trees are empty.
fn are_empty(roots: &[Root; 8]) -> bool
    ensures { result ≡ have_no_trees roots.now }
{
    roots.iter().all(|root| root.height == 0 && root.page == 0)
}

/// The damage of a root that isn't that of an empty tree.
fn has_tree() -> OpenError
    ensures { result ≡ refusal.Damaged PROFILE_PAGE rule.Page }
{
    OpenError::Damaged {
        page: PROFILE_PAGE,
        rule: Rule::Page,
    }
}

/// What the slots of a file hold, in order.
#[derive(Drop)]
struct LoadedObjects {
    objects: ObjectFile,
    lists: [RowList; 4],
}

/// The objects of the file of a profile and its pivots, in pages without a free page. All pages of the pool become
/// free.
fn load_objects<D: Disk, M: Metric>(
    alloc: Global,
    pages: &mut PageStore<'_, D>,
    profile: &Profile,
    pivots: &[Bytes],
    metric: M,
) -> Result<LoadedObjects, OpenError>
    requires fresh { pages.old ≡ unchanged pages.old.disk pages.old.name (file_pages profile.now.cap)
        (FIRST_HOME + slot_pages_of profile.now.cap) (pool_pages_of profile.now.cap) [] }
    requires closed { IsTrue (D.is_known pages.old.disk) → has_open_gate (D.image pages.old.disk) ≡ false }
    requires in_range { IsInRange profile.now }
    requires count { length pivots.now ≡ profile.now.pivots }
    requires pivots { All (IsValid profile.now.space) pivots.now }
    requires metric { IsMetricOf (M.admitted metric) (M.dist metric) profile.now.space }
    ensures store { IfOk result (λ loaded. IsStore D.is_known D.image M.admitted M.dist
        (store_of pages.new loaded.objects loaded.lists pivots.now profile.now metric None)) }
    ensures opens { IsTrue (D.is_known pages.old.disk) → IsTrue (have_no_trees profile.now.roots) → IsOpened (D.image pages.old.disk) profile.now pivots.now
        → MatchResult result (λ loaded. IsInState D.is_known D.image
        (store_of pages.new loaded.objects loaded.lists pivots.now profile.now metric None) (state_in (page (D.image pages.old.disk)) profile.now))
        (λ e. RefusesOpened e (D.image pages.old.disk)) }
    ensures kinds { IfErr result IsLastRefusal }
    ensures quiet { D.quiet pages.old.disk pages.new.disk }
    ensures told { StaysKnown D.is_known D.knows_crashes pages.old.disk pages.new.disk }
    ensures fault { CountsOpenFault result (D.faults pages.old.disk) (D.faults pages.new.disk) }
    ensures name { pages.new.name ≡ pages.old.name }
{
    let SlotContents { tables, free } = read_slots(alloc, pages, profile.cap, pivots, metric)?;
    let lists = lists_of(alloc, tables)?;
    let objects = ObjectFile::new(alloc, profile.cap, free.as_slice())?;
    free_pool(
        pages,
        FIRST_HOME + slot_pages(profile.cap),
        pool_pages(profile.cap),
    );
    Ok(LoadedObjects { objects, lists })
}

/// Frees all pages of the pool, of which none is free, in a change of its own. No device call is made.
fn free_pool<D: Disk>(pages: &mut PageStore<'_, D>, first: u32, count: u32)
    requires shut { IsShut pages.old }
    requires closed { IsTrue (D.is_known pages.old.disk) → has_open_gate (D.image pages.old.disk) ≡ false }
    requires pool { (pages.old.first ≡ first) × (pages.old.count ≡ count) }
    requires range { first + count < 4294967296 }
    requires none { pages.old.free ≡ [] }
    ensures pool { (n : ℕ) → is_among n pages.new.free ≡ in_pool pages.new n }
    ensures shut { IsShut pages.new }
    ensures same { HasSameRange pages.old pages.new }
    ensures quiet { D.quiet pages.old.disk pages.new.disk }
    ensures counts { D.faults pages.new.disk ≡ D.faults pages.old.disk }
{
    pages.begin();
    free_pages(pages, first, count);
    let Ok(()) = pages.commit() else {
        unreachable!()
    };
}
