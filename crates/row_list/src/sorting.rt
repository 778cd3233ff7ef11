//! Rows put in order of id at once.
ghost use Rattle.std.specs.Prelude.{◌≡◌, MatchOption, OnOk, IfOk};
ghost use Rattle.std.specs.List.Sorted.{IsPermutation, IsNonDecreasingBy, IsStableByKey};
ghost use Rattle.std.specs.Ordering.{nat_cmp};
ghost use Rattle.row_list.specs.Slotted.{HasAscendingIds, HasRepeatAt, id_of, rows_of, slots_of};

use pivot_map::Row;
use spb_edge::Memory;
use std::alloc::Global;
use thiserror::Error;

/// A row and the slot that holds its object.
#[derive(Debug, Drop)]
pub struct SlottedRow {
    /// The slot.
    pub slot: u32,
    /// The row.
    pub row: Row,
}

/// Why rows aren't put in a list.
#[derive(Clone, Copy, Debug, PartialEq, Eq, Drop, Error)]
pub enum ListError {
    /// The row of this slot has the id of a row of a lower slot.
    #[error("an id of two rows")]
    Repeated {
        /// The slot.
        slot: u32,
    },
    /// Memory ran out.
    #[error("out of memory")]
    Memory,
}

impl From<Memory> for ListError {
    ghost use Rattle.std.specs.Prelude.{◌≡◌};
    ghost use Rattle.row_list.specs.declared.sorting.ListError.TheVariants as error;

    ghost from_gives = { λ _ e. e ≡ error.Memory };

    fn from(_: Memory) -> ListError {
        ListError::Memory
    }
}

/// The rows of a list and their slots, at the same places.
#[derive(Drop)]
pub(crate) struct Columns {
    /// The rows.
    pub(crate) rows: Vec<Row>,
    /// Their slots.
    pub(crate) slots: Vec<u32>,
}

/// Sorts the rows by id. Rows of one id keep their order.
pub(crate) fn sort_by_id(rows: &mut Vec<SlottedRow>) -> Result<(), Memory>
    ensures same { IsPermutation rows.old.items rows.new.items }
    ensures order { OnOk result (IsNonDecreasingBy id_of rows.new.items) }
    ensures stable { IsStableByKey id_of nat_cmp rows.old.items rows.new.items }
{
    rows.sort_by_key(|row| row.row.id)?;
    Ok(())
}

/// The slot of the first row that has the id of the row before it.
pub(crate) fn repeated_slot(rows: &[SlottedRow]) -> Option<u32>
    requires { IsNonDecreasingBy id_of rows.now }
    ensures { MatchOption result (HasAscendingIds rows.now) (HasRepeatAt rows.now) }
{
    let mut last = None;
    for row in rows {
        if last == Some(row.row.id) {
            return Some(row.slot);
        }
        last = Some(row.row.id);
    }
    None
}

/// Takes the rows and their slots apart.
pub(crate) fn split(alloc: Global, all: Vec<SlottedRow>) -> Result<Columns, Memory>
    ensures { IfOk result (λ columns. (columns.rows.items ≡ rows_of all.items) × (columns.slots.items ≡ slots_of all.items)) }
{
    let mut rows = Vec::with_capacity(alloc, all.len())?;
    let mut slots = Vec::with_capacity(alloc, all.len())?;
    for SlottedRow { slot, row } in all {
        rows.push(row)?;
        slots.push(slot)?;
    }
    Ok(Columns { rows, slots })
}
