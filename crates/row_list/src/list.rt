//! A list of rows in order of id.
ghost use Rattle.std.specs.Prelude.{◌≡◌, ◌<◌, [], IsTrue, length, slice_index, IfOk, OnOk};
ghost use Rattle.std.specs.List.{insert, remove};
ghost use Rattle.row_list.specs.Slotted.{HasAscendingSlots};
ghost use Rattle.row_list.specs.Lists.{IsListed, IsPlaceFor, IsPlaceIn, Lists};

use crate::sorting::{ListError, SlottedRow, repeated_slot, sort_by_id, split};
use pivot_map::Row;
use spb_edge::Memory;
use std::alloc::Global;
use std::marker::Model;

/// Where an id is in a list.
#[derive(Clone, Copy, Debug, PartialEq, Eq, Drop)]
pub enum Place {
    /// The row at this place, from 0, has it.
    Found(usize),
    /// No row has it. A row of this id belongs before the one at this place, or after all of them.
    Absent(usize),
}

/// The rows of one collection in ascending order of id, each with the slot that holds its object. No two rows have the
/// same id. Contracts see the rows, their slots, and whether one more row fits without memory.
#[derive(Drop)]
pub struct RowList {
    rows: Vec<Row>,
    slots: Vec<u32>,
}

impl Model for RowList {
    ghost use Rattle.std.specs.Prelude.{◌&&◌, length, nat_lt, vec_capacity};
    ghost use Rattle.row_list.specs.Lists.{ListedRows, IsListed};

    ghost Value = { ListedRows };

    ghost view = { λ l. record {
      rows = l.rows.items;
      slots = l.slots.items;
      has_room = nat_lt (length l.rows.items) (vec_capacity l.rows) && nat_lt (length l.slots.items) (vec_capacity l.slots);
    } };

    ghost invariant = { λ l. IsListed l.rows.items l.slots.items };
}

impl RowList {
    /// A list without rows. It takes no memory.
    pub fn new(alloc: Global) -> RowList
        ensures rows { result.rows ≡ [] }
        ensures slots { result.slots ≡ [] }
        ensures sound { IsListed result.rows result.slots }
    {
        RowList {
            rows: Vec::new(alloc),
            slots: Vec::new(alloc),
        }
    }

    /// The list of rows that are given in ascending order of slot. If a row has the id of a row of a lower slot, the
    /// error is `Repeated`, with its slot. It takes time as a sort does, and memory for the sort and for as many rows
    /// again.
    pub fn from_rows(alloc: Global, rows: Vec<SlottedRow>) -> Result<RowList, ListError>
        requires { HasAscendingSlots rows.items }
        ensures lists { Lists result rows.items }
        ensures sound { IfOk result (λ list. IsListed list.rows list.slots) }
    {
        let mut sorted = rows;
        sort_by_id(&mut sorted)?;
        if let Some(slot) = repeated_slot(&sorted) {
            return Err(ListError::Repeated { slot });
        }
        let columns = split(alloc, sorted)?;
        Ok(RowList {
            rows: columns.rows,
            slots: columns.slots,
        })
    }

    /// How many rows there are.
    pub fn len(&self) -> usize
        ensures len { result ≡ length self.now.rows }
        ensures sound { IsListed self.now.rows self.now.slots }
    {
        self.rows.len()
    }

    /// The rows, in ascending order of id.
    pub fn rows(&self) -> &[Row]
        ensures rows { result.now ≡ self.now.rows }
        ensures sound { IsListed self.now.rows self.now.slots }
    {
        self.rows.as_slice()
    }

    /// The slot of the row at a place.
    pub fn slot(&self, place: usize) -> u32
        requires { place < length self.now.rows }
        ensures { result ≡ slice_index self.now.slots place }
    {
        self.slots[place]
    }

    /// The place of the row with the id, or where a row of this id belongs. It takes time in the logarithm of the
    /// number of rows.
    pub fn find(&self, id: u32) -> Place
        ensures place { IsPlaceIn self.now.rows id result }
        ensures sound { IsListed self.now.rows self.now.slots }
    {
        match self.rows.binary_search_by_key(&id, |row| row.id) {
            Ok(place) => Place::Found(place),
            Err(place) => Place::Absent(place),
        }
    }

    /// Makes room for one more row. The rows stay, whatever the result.
    pub fn reserve_one(&mut self) -> Result<(), Memory>
        ensures room { OnOk result (IsTrue self.new.has_room) }
        ensures rows { self.new.rows ≡ self.old.rows }
        ensures slots { self.new.slots ≡ self.old.slots }
    {
        self.rows.reserve(1)?;
        self.slots.reserve(1)?;
        Ok(())
    }

    /// Inserts a row of a new id, and its slot, where it belongs. There is room for it. It takes no memory, and time in
    /// the number of rows behind the place.
    pub fn insert(&mut self, place: usize, row: Row, slot: u32)
        requires room { IsTrue self.old.has_room }
        requires place { IsPlaceFor self.old.rows row.id place }
        ensures rows { self.new.rows ≡ insert self.old.rows place row }
        ensures slots { self.new.slots ≡ insert self.old.slots place slot }
        ensures sound { IsListed self.new.rows self.new.slots }
    {
        let Ok(()) = self.rows.insert(place, row) else {
            unreachable!()
        };
        let Ok(()) = self.slots.insert(place, slot) else {
            unreachable!()
        };
    }

    /// Removes the row at a place, and its slot. It takes no memory, and time in the number of rows behind the place.
    pub fn remove(&mut self, place: usize)
        requires { place < length self.old.rows }
        ensures rows { self.new.rows ≡ remove self.old.rows place }
        ensures slots { self.new.slots ≡ remove self.old.slots place }
        ensures sound { IsListed self.new.rows self.new.slots }
        ensures room { IsTrue self.new.has_room }
    {
        let _row = self.rows.remove(place);
        let _slot = self.slots.remove(place);
    }
}
