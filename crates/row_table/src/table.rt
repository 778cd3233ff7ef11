//! A table of rows.
ghost use Rattle.std.specs.Prelude.{◌≡◌, ◌++◌, ◌∷◌, [], length, is_some, None, OnOk, OnErr};
ghost use Rattle.std.specs.Option.{option_copied};
ghost use Rattle.std.specs.List.Sorted.{IsPermutation};
ghost use Rattle.row_table.specs.Tables.{row_with, rows_without, HasDistinctIds};

use crate::places::{find_row, insert_row, remove_row};
use pivot_map::Row;
use spb_edge::Memory;
use std::alloc::Global;
use std::collections::BTreeMap;
use std::marker::Model;

/// The rows of one collection, side by side, and an index from each id to its place. No two rows have the same id.
/// Contracts see the list of the rows, in their order.
///
/// It takes memory for the rows, and for an entry of the index for each.
#[derive(Drop)]
pub struct RowTable {
    rows: Vec<Row>,
    index: BTreeMap<u32, usize>,
}

impl Model for RowTable {
    ghost use Rattle.std.specs.Prelude.{List};
    ghost use Rattle.std.specs.BTreeMap.{get};
    ghost use Rattle.std.specs.Ordering.{nat_cmp};
    ghost use Rattle.pivot_map.specs.declared.row.Row.{Row};
    ghost use Rattle.row_table.specs.Tables.{ids_of};
    ghost use Rattle.row_table.specs.Places.{IsIndexed};

    ghost Value = { List Row };

    ghost view = { λ t. t.rows.items };

    ghost invariant = { λ t. IsIndexed (get nat_cmp t.index) (ids_of t.rows.items) };
}

impl RowTable {
    /// A table without rows. It takes no memory.
    pub fn new(alloc: Global) -> RowTable
        ensures { result ≡ [] }
    {
        RowTable {
            rows: Vec::new(alloc),
            index: BTreeMap::new(alloc),
        }
    }

    /// How many rows there are.
    pub fn len(&self) -> usize
        ensures { result ≡ length self.now }
    {
        self.rows.len()
    }

    /// The rows, in their order.
    pub fn rows(&self) -> &[Row]
        ensures rows { result.now ≡ self.now }
        ensures ids { HasDistinctIds self.now }
    {
        self.rows.as_slice()
    }

    /// The row with the id. It takes time in the logarithm of the number of rows.
    pub fn find(&self, id: u32) -> Option<&Row>
        ensures { option_copied result ≡ row_with id self.now }
    {
        find_row(self.rows.as_slice(), &self.index, id)
    }

    /// Whether a row has the id. It takes time in the logarithm of the number of rows.
    pub fn has(&self, id: u32) -> bool
        ensures { result ≡ is_some (row_with id self.now) }
    {
        self.find(id).is_some()
    }

    /// Adds a row of a new id after the others. If memory runs out nothing changes. It takes time in the logarithm of
    /// the number of rows.
    pub fn insert(&mut self, row: Row) -> Result<(), Memory>
        requires new { row_with row.id self.old ≡ None }
        ensures ok { OnOk result (self.new ≡ self.old ++ row ∷ []) }
        ensures err { OnErr result (self.new ≡ self.old) }
    {
        insert_row(&mut self.rows, &mut self.index, row)
    }

    /// Removes the row with the id, and says whether there was one. The last row moves to its place. It takes no
    /// memory, and time in the logarithm of the number of rows.
    pub fn remove(&mut self, id: u32) -> bool
        ensures found { result ≡ is_some (row_with id self.old) }
        ensures others { IsPermutation (rows_without id self.old) self.new }
        ensures absent { row_with id self.old ≡ None → self.new ≡ self.old }
    {
        remove_row(&mut self.rows, &mut self.index, id)
    }
}
