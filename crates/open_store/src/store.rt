//! A store over an open file.
ghost use Rattle.std.specs.Prelude.{◌≡◌, ◌<◌, ◌≤◌, ◌*◌, ℕ, List, None, Some, false, IsTrue, OnOk, OnErr, length, map};
ghost use Rattle.std.specs.List.Sorted.{IsPermutation};
ghost use Rattle.spb_edge.specs.Calls.{StaysKnown};
ghost use Rattle.spb_edge.specs.Crash.{IsDurable, CrashesLeaveOnly};
ghost use Rattle.page_laws.specs.declared.pages.TheConstants.{PAGE_SIZE};
ghost use Rattle.page_laws.specs.Pages.{risen};
ghost use Rattle.spb_defs.specs.State.{State, object_at, is_full, member_count, entries_in};
ghost use Rattle.pivot_map.specs.Rows.{AreRows, entries_of};
ghost use Rattle.page_store.specs.PageStore.{IsCalm};
ghost use Rattle.row_list.specs.Slotted.{rows_of};
ghost use Rattle.row_list.specs.Lists.{IsInOrder};
ghost use Rattle.open_store.specs.Errors.{CountsChangeFault};
ghost use Rattle.open_store.specs.Store.{IsStore, IsInState, store_of, table_at, row_in, is_full_store, with_member, without_member};
ghost use Rattle.open_store.specs.Answers.{Spends, StaysIfRefused, AnswersAdd, AnswersKey, IsSound, HasUnfilledRow, BlamesProfile, BlamesSlots, StandsForEither, HasSameSetup};

use crate::adding::add_object;
use crate::errors::{ChangeError, First};
use crate::getting::get_object;
use crate::lists::{count_rows, len_at, rows_at};
use crate::removing::remove_object;
use metric_laws::Metric;
use object_file::{ObjectFile, SlotHead};
use page_store::PageStore;
use row_list::{Row, RowList};
use spb_edge::{Bytes, Disk};
use std::alloc::Global;
use std::marker::Model;
use store_check::Profile;

/// What a store was opened with.
#[derive(Drop)]
pub(crate) struct Setup<M: Metric> {
    pub(crate) profile: Profile,
    pub(crate) pivots: Vec<Bytes>,
    pub(crate) metric: M,
}

/// A store over an open file: objects in four collections, each under an id.
///
/// It keeps the rows of all objects in memory, and each call that changes them is one change of the file: a crash leaves
/// the file with all of it or none. After an error of the disk, of what the pages hold, or of memory, the store is
/// spent: the file is to be opened again.
#[derive(Drop)]
pub struct Store<'a, D: Disk, M: Metric> {
    pages: PageStore<'a, D>,
    objects: ObjectFile,
    lists: [RowList; 4],
    setup: Setup<M>,
    spent: Option<First>,
}

impl<'a, D: Disk, M: Metric> Model for Store<'a, D, M> {
    ghost use Rattle.open_store.specs.Store.{StoreView, IsStore, opened_store};

    ghost Value = { StoreView D M };

    ghost view = { λ s. opened_store s.pages s.objects s.lists s.setup s.spent };

    ghost invariant = { λ s. IsStore D.is_known D.image M.admitted M.dist (opened_store s.pages s.objects s.lists s.setup s.spent) };
}

impl<'a, D: Disk, M: Metric> Store<'a, D, M> {
    /// The store of these parts, which agree with the profile: the pages and their pool, the slots, and the pivots are as
    /// many as it says, the metric is that of its space, and each slot has a row in one of the four lists or is free. No
    /// change is open, no commit failed, and over a known disk the gate is closed. It takes no memory.
    pub fn of_parts(
        pages: PageStore<'a, D>,
        objects: ObjectFile,
        lists: [RowList; 4],
        pivots: Vec<Bytes>,
        profile: Profile,
        metric: M,
    ) -> Self
        requires sound { IsStore D.is_known D.image M.admitted M.dist (store_of pages objects lists pivots.items profile metric None) }
        ensures { result ≡ store_of pages.entry objects lists pivots.items profile metric None }
    {
        Store {
            pages,
            objects,
            lists,
            setup: Setup {
                profile,
                pivots,
                metric,
            },
            spent: None,
        }
    }

    /// Hands back the reference to the disk. No device call is made.
    pub fn into_inner(self) -> &'a mut D
        ensures name { result.ghost_name ≡ self.entry.pages.name }
        ensures disk { result.now ≡ self.entry.pages.disk }
        ensures size { D.size_of self.entry.pages.disk ≡ PAGE_SIZE * self.entry.pages.total }
    {
        let Store {
            pages,
            objects: _,
            lists: _,
            setup: _,
            spent: _,
        } = self;
        pages.into_inner()
    }

    /// Adds an object under a collection, 0 to 3, and an id.
    ///
    /// `Exists` comes exactly if the collection has an object under the id, and else `Full` exactly if the store has as
    /// many objects as it may have. `DiskFault` comes only if the disk counted a fault in this call. The memory that it
    /// takes, it takes before the first device call. It measures the distance to each pivot, and makes one change of one
    /// page; the row is put in its place in time in the number of rows behind it.
    pub fn add(&mut self, alloc: Global, c: u8, id: u32, object: &[u8]) -> Result<(), ChangeError>
        requires collection { c < 4 }
        requires object { M.admitted self.old.metric object.now }
        ensures spends { Spends self.old.spent result self.old self.new self.new.spent }
        ensures refused { StaysIfRefused result self.old self.new }
        ensures answers { AnswersAdd (row_in self.old.tables c id) (is_full_store self.old) result }
        ensures replies { (s : State) → IsInState D.is_known D.image self.old s → AnswersAdd (object_at s c id) (is_full s) result }
        ensures step { (s : State) → IsInState D.is_known D.image self.old s → OnOk result (IsInState D.is_known D.image self.new (with_member s c id object.now)) }
        ensures any_moment { (s : State) → IsInState D.is_known D.image self.old s → IsTrue (D.knows_crashes self.old.pages.disk)
            → IsDurable (D.image self.old.pages.disk) (D.crash_states self.old.pages.disk)
            → CrashesLeaveOnly D.moment D.crash_states_since self.old.pages.disk self.new.pages.disk (StandsForEither s (with_member s c id object.now)) }
        ensures kept { IsTrue (D.is_known self.old.pages.disk) → IsTrue (D.knows_crashes self.old.pages.disk)
            → IsDurable (D.image self.old.pages.disk) (D.crash_states self.old.pages.disk)
            → OnOk result (IsDurable (D.image self.new.pages.disk) (D.crash_states self.new.pages.disk)) }
        ensures rows { OnErr result (self.new.tables ≡ self.old.tables) }
        ensures setup { HasSameSetup self.old self.new }
        ensures told { StaysKnown D.is_known D.knows_crashes self.old.pages.disk self.new.pages.disk }
        ensures fault { CountsChangeFault result (D.faults self.old.pages.disk) (D.faults self.new.pages.disk) }
    {
        let head = SlotHead { collection: c, id };
        add_object(
            alloc,
            &mut self.pages,
            &mut self.objects,
            &mut self.lists,
            &mut self.spent,
            &self.setup,
            head,
            object,
        )
    }

    /// Removes the object under a collection, 0 to 3, and an id.
    ///
    /// `Absent` comes exactly if the collection has no object under the id. `DiskFault` comes only if the disk counted a
    /// fault in this call, and `Damaged` only if the slot of the object's row is among the free ones: never over a known disk
    /// that holds a state. It makes one change of one page.
    pub fn remove(&mut self, c: u8, id: u32) -> Result<(), ChangeError>
        requires collection { c < 4 }
        ensures spends { Spends self.old.spent result self.old self.new self.new.spent }
        ensures refused { StaysIfRefused result self.old self.new }
        ensures answers { AnswersKey (row_in self.old.tables c id) result }
        ensures replies { (s : State) → IsInState D.is_known D.image self.old s → AnswersKey (object_at s c id) result }
        ensures undamaged { (s : State) → IsInState D.is_known D.image self.old s → IsSound result }
        ensures blames { BlamesProfile (HasUnfilledRow self.old.slots self.old.tables c id) result }
        ensures step { (s : State) → IsInState D.is_known D.image self.old s → OnOk result (IsInState D.is_known D.image self.new (without_member s c id)) }
        ensures any_moment { (s : State) → IsInState D.is_known D.image self.old s → IsTrue (D.knows_crashes self.old.pages.disk)
            → IsDurable (D.image self.old.pages.disk) (D.crash_states self.old.pages.disk)
            → CrashesLeaveOnly D.moment D.crash_states_since self.old.pages.disk self.new.pages.disk (StandsForEither s (without_member s c id)) }
        ensures kept { IsTrue (D.is_known self.old.pages.disk) → IsTrue (D.knows_crashes self.old.pages.disk)
            → IsDurable (D.image self.old.pages.disk) (D.crash_states self.old.pages.disk)
            → OnOk result (IsDurable (D.image self.new.pages.disk) (D.crash_states self.new.pages.disk)) }
        ensures rows { OnErr result (self.new.tables ≡ self.old.tables) }
        ensures setup { HasSameSetup self.old self.new }
        ensures told { StaysKnown D.is_known D.knows_crashes self.old.pages.disk self.new.pages.disk }
        ensures fault { CountsChangeFault result (D.faults self.old.pages.disk) (D.faults self.new.pages.disk) }
    {
        let head = SlotHead { collection: c, id };
        remove_object(
            &mut self.pages,
            &mut self.objects,
            &mut self.lists,
            &mut self.spent,
            &self.setup,
            head,
        )
    }

    /// Replaces the bytes of `object` by the object under a collection, 0 to 3, and an id.
    ///
    /// `Absent` comes exactly if the collection has no object under the id. `DiskFault` comes only if the disk counted a
    /// fault in this call, and `Damaged` if the page of the object's slot doesn't hold an admitted object of the key: never
    /// over a known disk that holds a state. It reads one page, and takes memory for the object.
    pub fn get(&mut self, c: u8, id: u32, object: &mut Bytes) -> Result<(), ChangeError>
        requires collection { c < 4 }
        ensures spends { Spends self.old.spent result self.old self.new self.new.spent }
        ensures refused { StaysIfRefused result self.old self.new }
        ensures answers { AnswersKey (row_in self.old.tables c id) result }
        ensures replies { (s : State) → IsInState D.is_known D.image self.old s → AnswersKey (object_at s c id) result }
        ensures undamaged { (s : State) → IsInState D.is_known D.image self.old s → IsSound result }
        ensures blames { BlamesSlots self.old.slots.cap result }
        ensures gives { (s : State) → IsInState D.is_known D.image self.old s → OnOk result (object_at s c id ≡ Some object.new) }
        ensures admitted { OnOk result (M.admitted self.old.metric object.new) }
        ensures step { (s : State) → IsInState D.is_known D.image self.old s → OnOk result (IsInState D.is_known D.image self.new s) }
        ensures fetches { OnOk result (self.new.pages.fetches ≡ risen self.old.pages.fetches 1) }
        ensures calm { IsCalm D.is_known D.reads D.quiet self.old.pages self.new.pages }
        ensures only { self.new ≡ record self.old { pages = self.new.pages; spent = self.new.spent } }
        ensures fault { CountsChangeFault result (D.faults self.old.pages.disk) (D.faults self.new.pages.disk) }
    {
        let head = SlotHead { collection: c, id };
        get_object(
            &mut self.pages,
            &self.objects,
            &self.lists,
            &mut self.spent,
            &self.setup,
            head,
            object,
        )
    }

    /// How many objects a collection, 0 to 3, has. After a call that failed it is as before the call.
    pub fn count(&self, c: u8) -> u32
        requires { c < 4 }
        ensures rows { result ≡ length (table_at self.now.tables c) }
        ensures members { (s : State) → IsInState D.is_known D.image self.now s → result ≡ member_count s.members c }
    {
        len_at(&self.lists, c) as u32
    }

    /// Whether there are as many objects as there may be. After a call that failed it is as before the call.
    pub fn full(&self) -> bool
        ensures rows { result ≡ is_full_store self.now }
        ensures members { (s : State) → IsInState D.is_known D.image self.now s → self.now.spent ≡ None → result ≡ is_full s }
    {
        count_rows(&self.lists) >= self.setup.profile.cap as usize
    }

    /// The rows of a collection, 0 to 3, in ascending order of id. It takes no memory.
    pub fn rows(&self, c: u8) -> &[Row]
        requires { c < 4 }
        ensures rows { result.now ≡ rows_of (table_at self.now.tables c) }
        ensures order { IsInOrder result.now }
        ensures sound { AreRows (M.admitted self.now.metric) (M.dist self.now.metric) self.now.pivots result.now }
        ensures members { (s : State) → IsInState D.is_known D.image self.now s → IsPermutation (entries_in s.members c) (entries_of result.now) }
    {
        rows_at(&self.lists, c)
    }

    /// The metric.
    pub fn metric(&self) -> M
        ensures { result ≡ self.now.metric }
    {
        self.setup.metric
    }

    /// The profile.
    pub fn profile(&self) -> &Profile
        ensures { result.now ≡ self.now.profile }
    {
        &self.setup.profile
    }

    /// The pivots.
    pub fn pivots(&self) -> &[Bytes]
        ensures { result.now ≡ self.now.pivots }
    {
        self.setup.pivots.as_slice()
    }
}
