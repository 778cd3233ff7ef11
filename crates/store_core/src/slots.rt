//! The slots of a file, read one page after another.
ghost use Rattle.std.specs.Prelude.{◌≡◌, ℕ, ◌+◌, ◌*◌, ◌%◌, ◌^◌, ◌<◌, ◌≤◌, [], ◌∷◌, ◌++◌, List, IsTrue, IfOk, IfErr, OnOk, MatchResult, All};
ghost use Rattle.spb_defs.specs.MetricOf.{IsMetricOf};
ghost use Rattle.metrics_builtin.specs.declared.Space.{Space};
ghost use Rattle.pivot_map.specs.Rows.{ArePivots};
ghost use Rattle.page_laws.specs.declared.rule.Rule.TheVariants as rule;
ghost use Rattle.page_laws.specs.Pages.{is_among};
ghost use Rattle.free_list.specs.FreeNumbers.{is_within};
ghost use Rattle.redo_journal.specs.declared.layout.TheConstants.{FIRST_HOME};
ghost use Rattle.object_file.specs.declared.file.TheConstants.{SLOTS_PER_PAGE};
ghost use Rattle.object_file.specs.declared.slots.TheConstants.{COLLECTIONS};
ghost use Rattle.page_laws.specs.Calls.{PagesContinue};
ghost use Rattle.object_file.specs.ObjectFile.{slot_page as page_of, HasSlots, slot_at};
ghost use Rattle.row_list.specs.declared.sorting.SlottedRow.{SlottedRow};
ghost use Rattle.store_check.specs.declared.layout.TheConstants.{CAP_LIMIT};
ghost use Rattle.open_store.specs.Store.{table_at, measured_row};
ghost use Rattle.store_core.specs.declared.errors.OpenError.TheVariants as refusal;
ghost use Rattle.store_core.specs.Errors.{CountsOpenFault};
ghost use Rattle.store_core.specs.SlotContents.{HasTables, AddsRow, HoldsTables, slots_before, RefusesSlot, RefusesSlots, IsListOf, AreListsOf, HasRepeatOn, HasRepeatIn, RefusesPage, IsSlotRefusal, page_refusal, HasSamePages};

use crate::OpenError;
use metric_laws::{Counted, Metric};
use object_file::{COLLECTIONS, SLOTS_PER_PAGE, SlotContent, SlotHead, read_slot, slot_page};
use page_laws::{PAGE_SIZE, PageError, Pages, Rule};
use pivot_map::map_object;
use redo_journal::layout::FIRST_HOME;
use row_list::{ListError, Row, RowList, SlottedRow};
use spb_edge::{Bytes, Memory};
use std::alloc::Global;
use std::marker::Model;
use std::mem;
use store_check::slot_pages;

/// The rows of a collection, in the order of their slots.
#[derive(Drop)]
pub(crate) struct SlotTable {
    rows: Vec<SlottedRow>,
}

impl Model for SlotTable {
    ghost use Rattle.std.specs.Prelude.{List};
    ghost use Rattle.row_list.specs.declared.sorting.SlottedRow.{SlottedRow};
    ghost use Rattle.row_list.specs.Slotted.{HasAscendingSlots};

    ghost Value = { List SlottedRow };

    ghost view = { λ t. t.rows.items };

    ghost invariant = { λ t. HasAscendingSlots t.rows.items };
}

impl SlotTable {
    /// A table without rows. It takes no memory.
    fn new(alloc: Global) -> SlotTable
        ensures { result ≡ [] }
    {
        SlotTable {
            rows: Vec::new(alloc),
        }
    }

    /// Adds a row of a slot behind those of the others.
    fn push(&mut self, row: SlottedRow) -> Result<(), Memory>
        requires { All (λ (other : SlottedRow). other.slot < row.slot) self.old }
        ensures { OnOk result (self.new ≡ self.old ++ row ∷ []) }
    {
        self.rows.push(row)?;
        Ok(())
    }

    /// The rows in ascending order of id. Damaged comes exactly if two rows have one id; it names the page of a
    /// row that has the id of a row of a lower slot.
    fn into_list(self, alloc: Global) -> Result<RowList, OpenError>
        ensures { MatchResult result (IsListOf self) (RefusesPage (HasRepeatOn self)) }
    {
        match RowList::from_rows(alloc, self.rows) {
            Ok(list) => Ok(list),
            Err(ListError::Repeated { slot }) => Err(bad_slot(slot)),
            Err(ListError::Memory) => Err(OpenError::Memory),
        }
    }
}

/// The rows of the four collections, in the order of their slots, and the free slots.
#[derive(Drop)]
pub(crate) struct SlotContents {
    pub(crate) tables: [SlotTable; 4],
    pub(crate) free: Vec<u32>,
}

/// The damage of a slot.
fn bad_slot(slot: u32) -> OpenError
    ensures { result ≡ refusal.Damaged (page_of slot) rule.Slot }
{
    OpenError::Damaged {
        page: slot_page(slot),
        rule: Rule::Slot,
    }
}

/// What the slots below `cap` hold, 1 to 65536. Each page is read once, in rising order.
///
/// Damaged comes exactly if a slot reads as neither filled nor free, or holds bytes that are no object; it
/// names the page of the first such slot.
pub(crate) fn read_slots<P: Pages, M: Metric>(
    alloc: Global,
    pages: &mut P,
    cap: u32,
    pivots: &[Bytes],
    metric: M,
) -> Result<SlotContents, OpenError>
    requires cap { (1 ≤ cap) × (cap ≤ CAP_LIMIT) }
    requires there { HasSlots (P.has pages.old) cap }
    requires pivots { ArePivots (M.admitted metric) pivots.now }
    ensures tables { IfOk result (λ contents. HasTables (M.admitted metric) (M.dist metric) pivots.now cap contents.tables contents.free.items) }
    ensures reads { IsTrue (P.is_known pages.old) → (space : Space) → IsMetricOf (M.admitted metric) (M.dist metric) space
        → MatchResult result (λ contents. HoldsTables space cap (P.page_at pages.old) contents.tables contents.free.items)
        (RefusesSlots space cap (slot_at (P.page_at pages.old))) }
    ensures continues { PagesContinue P.is_known P.has P.in_pool P.free P.is_open P.calm pages.old pages.new }
    ensures pages { IsTrue (P.is_known pages.old) → P.page_at pages.new ≡ P.page_at pages.old }
    ensures put { P.put_pages pages.new ≡ P.put_pages pages.old }
    ensures kinds { IfErr result IsSlotRefusal }
    ensures fault { CountsOpenFault result (P.faults pages.old) (P.faults pages.new) }
{
    let mut contents = SlotContents {
        tables: [
            SlotTable::new(alloc),
            SlotTable::new(alloc),
            SlotTable::new(alloc),
            SlotTable::new(alloc),
        ],
        free: Vec::new(alloc),
    };
    let mut page = [0; PAGE_SIZE];
    for n in 0..slot_pages(cap) {
        if let Err(e) = pages.get(FIRST_HOME + n, &mut page) {
            return Err(refusal_of(e));
        }
        add_page(alloc, &mut contents, &page, n, cap, pivots, metric)?;
    }
    Ok(contents)
}

/// The refusal for an error of pages.
fn refusal_of(e: PageError) -> OpenError
    ensures { result ≡ page_refusal e }
{
    match e {
        PageError::Fault => OpenError::DiskFault,
        PageError::Memory => OpenError::Memory,
    }
}

/// Adds what the slots of a page hold, the first, the second and so on from 0: those of them that are below
/// the cap.
fn add_page<M: Metric>(
    alloc: Global,
    contents: &mut SlotContents,
    page: &[u8; PAGE_SIZE],
    n: u32,
    cap: u32,
    pivots: &[Bytes],
    metric: M,
) -> Result<(), OpenError>
    requires page { SLOTS_PER_PAGE * n < cap }
    requires cap { cap ≤ CAP_LIMIT }
    requires pivots { ArePivots (M.admitted metric) pivots.now }
    requires tables { HasTables (M.admitted metric) (M.dist metric) pivots.now (SLOTS_PER_PAGE * n) contents.old.tables contents.old.free.items }
    ensures tables { OnOk result (HasTables (M.admitted metric) (M.dist metric) pivots.now (slots_before cap (n + 1)) contents.new.tables contents.new.free.items) }
    ensures reads { (space : Space) (pages : ℕ → List ℕ) → IsMetricOf (M.admitted metric) (M.dist metric) space → pages (FIRST_HOME + n) ≡ page.now
        → HoldsTables space (SLOTS_PER_PAGE * n) pages contents.old.tables contents.old.free.items
        → MatchResult result (λ _. HoldsTables space (slots_before cap (n + 1)) pages contents.new.tables contents.new.free.items)
        (RefusesSlots space cap (slot_at pages)) }
    ensures kinds { IfErr result (RefusesPage (λ _. Unit)) }
{
    let first = SLOTS_PER_PAGE * n;
    for slot in first..cap.min(first + SLOTS_PER_PAGE) {
        add_slot(alloc, contents, page, slot, pivots, metric)?;
    }
    Ok(())
}

/// Adds what a slot of a page holds.
fn add_slot<M: Metric>(
    alloc: Global,
    contents: &mut SlotContents,
    page: &[u8; PAGE_SIZE],
    slot: u32,
    pivots: &[Bytes],
    metric: M,
) -> Result<(), OpenError>
    requires pivots { ArePivots (M.admitted metric) pivots.now }
    requires tables { HasTables (M.admitted metric) (M.dist metric) pivots.now slot contents.old.tables contents.old.free.items }
    ensures tables { OnOk result (HasTables (M.admitted metric) (M.dist metric) pivots.now (slot + 1) contents.new.tables contents.new.free.items) }
    ensures reads { (space : Space) (cap : ℕ) (pages : ℕ → List ℕ) → IsMetricOf (M.admitted metric) (M.dist metric) space → slot < cap
        → pages (page_of slot) ≡ page.now → HoldsTables space slot pages contents.old.tables contents.old.free.items
        → MatchResult result (λ _. HoldsTables space (slot + 1) pages contents.new.tables contents.new.free.items)
        (RefusesSlots space cap (slot_at pages)) }
    ensures kinds { IfErr result (RefusesPage (λ _. Unit)) }
{
    match read_slot(page, (slot % SLOTS_PER_PAGE) as usize) {
        SlotContent::Free => {
            add_free(&mut contents.free, slot)?;
            Ok(())
        }
        SlotContent::Filled(head, object) => add_object(
            alloc,
            &mut contents.tables,
            slot,
            head,
            object,
            pivots,
            metric,
        ),
        SlotContent::Broken => Err(bad_slot(slot)),
    }
}

/// Adds a free slot.
fn add_free(free: &mut Vec<u32>, slot: u32) -> Result<(), Memory>
    ensures { OnOk result (free.new.items ≡ free.old.items ++ slot ∷ []) }
{
    free.push(slot)?;
    Ok(())
}

/// Adds the row of an object in a slot, if the metric measures it.
fn add_object<M: Metric>(
    alloc: Global,
    tables: &mut [SlotTable; 4],
    slot: u32,
    head: SlotHead,
    object: &[u8],
    pivots: &[Bytes],
    metric: M,
) -> Result<(), OpenError>
    requires collection { head.collection < COLLECTIONS }
    requires below { (c : ℕ) → c < COLLECTIONS → All (λ (row : SlottedRow). row.slot < slot) (table_at tables.old c) }
    requires pivots { ArePivots (M.admitted metric) pivots.now }
    ensures { MatchResult result (λ _. AddsRow (M.admitted metric) (M.dist metric) pivots.now slot head.collection head.id object.now tables.old tables.new)
        (RefusesSlot (M.admitted metric object.now → ⊥) slot) }
{
    if !metric.admits(object) {
        return Err(bad_slot(slot));
    }
    let row = slotted_row(alloc, slot, head.id, object, pivots, metric)?;
    tables[head.collection as usize].push(row)?;
    Ok(())
}

/// The row of an object, with its slot.
fn slotted_row<M: Metric>(
    alloc: Global,
    slot: u32,
    id: u32,
    object: &[u8],
    pivots: &[Bytes],
    metric: M,
) -> Result<SlottedRow, Memory>
    requires pivots { ArePivots (M.admitted metric) pivots.now }
    requires object { M.admitted metric object.now }
    ensures row { IfOk result (λ row. row ≡ record { slot = slot; row = measured_row (M.dist metric) pivots.now id object.now }) }
    ensures few { id < 2 ^ 32 }
{
    let object = Bytes::of(alloc, object)?;
    let vect = map_object(&mut Counted::new(metric), pivots, object.as_slice());
    Ok(SlottedRow {
        slot,
        row: Row { id, object, vect },
    })
}

/// The four lists, each in ascending order of id. Damaged comes exactly if two rows of a collection have one id; it
/// names the page of a row that has the id of a row of a lower slot.
pub(crate) fn lists_of(alloc: Global, mut tables: [SlotTable; 4]) -> Result<[RowList; 4], OpenError>
    ensures { MatchResult result (AreListsOf tables) (RefusesPage (HasRepeatIn tables)) }
{
    let mut lists = [
        RowList::new(alloc),
        RowList::new(alloc),
        RowList::new(alloc),
        RowList::new(alloc),
    ];
    for c in 0..4 {
        let table = mem::replace(&mut tables[c], SlotTable::new(alloc));
        lists[c] = table.into_list(alloc)?;
    }
    Ok(lists)
}

/// Frees so many pages from `first` on, which are the pool and of which none is free.
pub(crate) fn free_pages<P: Pages>(pages: &mut P, first: u32, count: u32)
    requires open { IsTrue (P.is_open pages.old) }
    requires pool { (n : ℕ) → P.in_pool pages.old n ≡ is_within first count n }
    requires range { first + count < 4294967296 }
    requires none { P.free pages.old ≡ [] }
    ensures pool { (n : ℕ) → is_among n (P.free pages.new) ≡ is_within first count n }
    ensures continues { HasSamePages P.is_known P.has P.in_pool P.is_open P.put_pages P.faults P.calm pages.old pages.new }
{
    for n in first..first + count {
        pages.give_page(n);
    }
}
