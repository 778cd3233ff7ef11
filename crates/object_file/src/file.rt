//! The slots of a store's file.
ghost use Rattle.std.specs.Prelude.{◌≡◌, ℕ, ◌+◌, ◌/◌, ◌<◌, ◌≤◌, ◌∷◌, IsTrue, IfOk, OnOk, OnErr, length};
ghost use Rattle.std.specs.List.Sorted.{IsPermutation};
ghost use Rattle.page_laws.specs.Errors.{CountsFault, CountsTreeFault};
ghost use Rattle.page_laws.specs.Pages.{risen, AreFree, JoinsAtMost};
ghost use Rattle.object_file.specs.declared.slots.TheConstants.{OBJECT_LIMIT, COLLECTIONS};
ghost use Rattle.object_file.specs.Slots.{Slot, Free, Holds};
ghost use Rattle.page_laws.specs.Calls.{PagesContinue};
ghost use Rattle.object_file.specs.ObjectFile as words;
ghost use Rattle.object_file.specs.ObjectFile.{is_slot, slot_at, HasSlots, SetsSlot, Gives, NamesSlot};

use crate::slots::{SlotContent, SlotHead, fill_slot, free_slot, read_slot};
use free_list::FreeList;
use page_laws::{PAGE_SIZE, PageError, Pages, Rule, TreeError};
use redo_journal::layout::FIRST_HOME;
use spb_edge::{Bytes, Memory};
use std::alloc::Global;
use std::marker::Model;

/// How many slots a page has.
pub const SLOTS_PER_PAGE: u32 = 4;

/// The page of a slot. The first four are in the page after the journal.
pub fn slot_page(slot: u32) -> u32
    ensures { result ≡ words.slot_page slot }
{
    FIRST_HOME + slot / SLOTS_PER_PAGE
}

/// The slots of a file, with those that are free. Its memory is taken when it is made.
#[derive(Debug, Drop)]
pub struct ObjectFile {
    free: FreeList,
}

impl Model for ObjectFile {
    ghost use Rattle.object_file.specs.ObjectFile.{Slots, AreSlots, slots_of};

    ghost Value = { Slots };

    ghost view = { λ f. slots_of f.free };

    ghost invariant = { λ f. AreSlots f.free };
}

impl ObjectFile {
    /// So many slots, 1 to 65536, with the free ones.
    pub fn new(alloc: Global, cap: u32, free: &[u32]) -> Result<ObjectFile, Memory>
        requires cap { (1 ≤ cap) × (cap ≤ 65536) }
        requires free { AreFree (is_slot cap) free.now }
        ensures { IfOk result (λ file. file ≡ record { cap = cap; free = free.now }) }
    {
        let free = FreeList::new(alloc, 0, cap, free)?;
        Ok(ObjectFile { free })
    }

    /// Puts an object of at most 120 bytes into a free slot, and answers which. It reads and puts one
    /// page. After an error the free slots are as before, and the change is to be abandoned.
    pub fn slot_put<P: Pages>(
        &mut self,
        pages: &mut P,
        head: SlotHead,
        object: &[u8],
    ) -> Result<u32, PageError>
        requires there { HasSlots (P.has pages.old) self.old.cap }
        requires open { IsTrue (P.is_open pages.old) }
        requires few { length (P.put_pages pages.old) ≤ 40 }
        requires free { 0 < length self.old.free }
        requires collection { head.collection < COLLECTIONS }
        requires short { length object.now ≤ OBJECT_LIMIT }
        ensures slot { IsTrue (P.is_known pages.old)
            → IfOk result (λ slot. SetsSlot slot (Holds head.collection head.id object.now) (P.page_at pages.old) (P.page_at pages.new)) }
        ensures taken { IfOk result (λ slot. (slot < self.old.cap) × IsPermutation self.old.free (slot ∷ self.new.free)) }
        ensures err { OnErr result (self.new ≡ self.old) }
        ensures cap { self.new.cap ≡ self.old.cap }
        ensures put { IfOk result (λ slot. JoinsAtMost (words.slot_page slot) (P.put_pages pages.old) (P.put_pages pages.new)) }
        ensures continues { PagesContinue P.is_known P.has P.in_pool P.free P.is_open P.calm pages.old pages.new }
        ensures fetches { P.fetches pages.new ≡ risen (P.fetches pages.old) 1 }
        ensures fault { CountsFault result (P.faults pages.old) (P.faults pages.new) }
    {
        let slot = self.free.take();
        match put_filled(pages, slot, head, object) {
            Ok(()) => Ok(slot),
            Err(e) => {
                self.free.give(slot);
                Err(e)
            }
        }
    }

    /// Replaces the bytes of `object` by the object in a slot. Damaged with the slot's page comes exactly
    /// if the slot isn't a filled one. It reads one page.
    pub fn slot_get<P: Pages>(
        &self,
        pages: &mut P,
        slot: u32,
        object: &mut Bytes,
    ) -> Result<SlotHead, TreeError>
        requires there { HasSlots (P.has pages.old) self.now.cap }
        requires slot { slot < self.now.cap }
        ensures gives { IsTrue (P.is_known pages.old) → Gives (slot_at (P.page_at pages.old) slot) (words.slot_page slot) result object.new }
        ensures damaged { NamesSlot (words.slot_page slot) result }
        ensures fetches { OnOk result (P.fetches pages.new ≡ risen (P.fetches pages.old) 1) }
        ensures pages { IsTrue (P.is_known pages.old) → P.page_at pages.new ≡ P.page_at pages.old }
        ensures continues { PagesContinue P.is_known P.has P.in_pool P.free P.is_open P.calm pages.old pages.new }
        ensures put { P.put_pages pages.new ≡ P.put_pages pages.old }
        ensures fault { CountsTreeFault result (P.faults pages.old) (P.faults pages.new) }
    {
        let n = slot_page(slot);
        let mut page = [0; PAGE_SIZE];
        pages.get(n, &mut page)?;
        match read_slot(&page, (slot % SLOTS_PER_PAGE) as usize) {
            SlotContent::Filled(head, bytes) => {
                object.clear();
                object.append(bytes)?;
                Ok(head)
            }
            SlotContent::Free | SlotContent::Broken => Err(TreeError::Damaged {
                page: n,
                rule: Rule::Slot,
            }),
        }
    }

    /// Frees a filled slot. It reads and puts one page. After an error the free slots are as before, and
    /// the change is to be abandoned.
    pub fn slot_clear<P: Pages>(&mut self, pages: &mut P, slot: u32) -> Result<(), PageError>
        requires there { HasSlots (P.has pages.old) self.old.cap }
        requires open { IsTrue (P.is_open pages.old) }
        requires few { length (P.put_pages pages.old) ≤ 40 }
        requires filled { IsTrue (words.is_filled self.old slot) }
        ensures slot { IsTrue (P.is_known pages.old) → OnOk result (SetsSlot slot Free (P.page_at pages.old) (P.page_at pages.new)) }
        ensures freed { OnOk result (IsPermutation self.new.free (slot ∷ self.old.free)) }
        ensures err { OnErr result (self.new ≡ self.old) }
        ensures cap { self.new.cap ≡ self.old.cap }
        ensures put { OnOk result (JoinsAtMost (words.slot_page slot) (P.put_pages pages.old) (P.put_pages pages.new)) }
        ensures continues { PagesContinue P.is_known P.has P.in_pool P.free P.is_open P.calm pages.old pages.new }
        ensures fetches { P.fetches pages.new ≡ risen (P.fetches pages.old) 1 }
        ensures fault { CountsFault result (P.faults pages.old) (P.faults pages.new) }
    {
        put_free(pages, slot)?;
        self.free.give(slot);
        Ok(())
    }

    /// Whether a slot is below the cap and isn't free.
    pub fn is_filled(&self, slot: u32) -> bool
        ensures { result ≡ words.is_filled self.now slot }
    {
        self.free.is_live(slot)
    }

    /// How many slots are free.
    pub fn free_slots(&self) -> u32
        ensures count { result ≡ length self.now.free }
        ensures free { AreFree (is_slot self.now.cap) self.now.free }
    {
        self.free.len()
    }
}

/// Puts an object into a slot of the pages.
fn put_filled<P: Pages>(
    pages: &mut P,
    slot: u32,
    head: SlotHead,
    object: &[u8],
) -> Result<(), PageError>
    requires there { IsTrue (P.has pages.old (words.slot_page slot)) }
    requires open { IsTrue (P.is_open pages.old) }
    requires few { length (P.put_pages pages.old) ≤ 40 }
    requires collection { head.collection < COLLECTIONS }
    requires short { length object.now ≤ OBJECT_LIMIT }
    ensures slot { IsTrue (P.is_known pages.old)
        → OnOk result (SetsSlot slot (Holds head.collection head.id object.now) (P.page_at pages.old) (P.page_at pages.new)) }
    ensures put { OnOk result (JoinsAtMost (words.slot_page slot) (P.put_pages pages.old) (P.put_pages pages.new)) }
    ensures continues { PagesContinue P.is_known P.has P.in_pool P.free P.is_open P.calm pages.old pages.new }
    ensures fetches { P.fetches pages.new ≡ risen (P.fetches pages.old) 1 }
    ensures fault { CountsFault result (P.faults pages.old) (P.faults pages.new) }
{
    let n = slot_page(slot);
    let mut page = [0; PAGE_SIZE];
    pages.get(n, &mut page)?;
    fill_slot(&mut page, (slot % SLOTS_PER_PAGE) as usize, head, object);
    pages.put(n, &page);
    Ok(())
}

/// Frees a slot of the pages.
fn put_free<P: Pages>(pages: &mut P, slot: u32) -> Result<(), PageError>
    requires there { IsTrue (P.has pages.old (words.slot_page slot)) }
    requires open { IsTrue (P.is_open pages.old) }
    requires few { length (P.put_pages pages.old) ≤ 40 }
    ensures slot { IsTrue (P.is_known pages.old) → OnOk result (SetsSlot slot Free (P.page_at pages.old) (P.page_at pages.new)) }
    ensures put { OnOk result (JoinsAtMost (words.slot_page slot) (P.put_pages pages.old) (P.put_pages pages.new)) }
    ensures continues { PagesContinue P.is_known P.has P.in_pool P.free P.is_open P.calm pages.old pages.new }
    ensures fetches { P.fetches pages.new ≡ risen (P.fetches pages.old) 1 }
    ensures fault { CountsFault result (P.faults pages.old) (P.faults pages.new) }
{
    let n = slot_page(slot);
    let mut page = [0; PAGE_SIZE];
    pages.get(n, &mut page)?;
    free_slot(&mut page, (slot % SLOTS_PER_PAGE) as usize);
    pages.put(n, &page);
    Ok(())
}
