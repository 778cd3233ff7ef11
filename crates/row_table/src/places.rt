//! Rows and an index that has their places.
ghost use Rattle.std.specs.Prelude.{◌≡◌, ◌≢◌, ◌++◌, ◌∷◌, [], ℕ, is_some, IsSome, Some, None, OnOk, OnErr};
ghost use Rattle.std.specs.Option.{option_copied};
ghost use Rattle.std.specs.List.Sorted.{IsPermutation};
ghost use Rattle.std.specs.BTreeMap.{get};
ghost use Rattle.std.specs.Ordering.{nat_cmp};
ghost use Rattle.row_table.specs.Tables.{row_with, rows_without, ids_of};
ghost use Rattle.row_table.specs.Places.{IsIndexed};

use pivot_map::Row;
use spb_edge::Memory;
use std::collections::BTreeMap;

/// The row with the id.
pub(crate) fn find_row<'a>(
    rows: &'a [Row],
    index: &BTreeMap<u32, usize>,
    id: u32,
) -> Option<&'a Row>
    requires { IsIndexed (get nat_cmp index.now) (ids_of rows.now) }
    ensures { option_copied result ≡ row_with id rows.now }
{
    match index.get(&id) {
        Some(&place) => rows.get(place),
        None => None,
    }
}

/// Adds a row of a new id after the others. If memory runs out nothing changes.
pub(crate) fn insert_row(
    rows: &mut Vec<Row>,
    index: &mut BTreeMap<u32, usize>,
    row: Row,
) -> Result<(), Memory>
    requires indexed { IsIndexed (get nat_cmp index.old) (ids_of rows.old.items) }
    requires new { row_with row.id rows.old.items ≡ None }
    ensures ok { OnOk result (rows.new.items ≡ rows.old.items ++ row ∷ []) }
    ensures err { OnErr result (rows.new.items ≡ rows.old.items) }
    ensures indexed { IsIndexed (get nat_cmp index.new) (ids_of rows.new.items) }
{
    rows.reserve(1)?;
    index.insert(row.id, rows.len())?;
    rows.push(row)?;
    Ok(())
}

/// Removes the row with the id, and says whether there was one. The last row moves to its place.
pub(crate) fn remove_row(rows: &mut Vec<Row>, index: &mut BTreeMap<u32, usize>, id: u32) -> bool
    requires { IsIndexed (get nat_cmp index.old) (ids_of rows.old.items) }
    ensures found { result ≡ is_some (row_with id rows.old.items) }
    ensures others { IsPermutation (rows_without id rows.old.items) rows.new.items }
    ensures absent { row_with id rows.old.items ≡ None → rows.new.items ≡ rows.old.items }
    ensures indexed { IsIndexed (get nat_cmp index.new) (ids_of rows.new.items) }
{
    let Some(place) = index.remove(&id) else {
        return false;
    };
    let _removed = rows.swap_remove(place);
    if place == rows.len() {
        return true;
    }
    set_place(index, rows[place].id, place);
    true
}

/// Gives an id that the index has another place. It takes no memory.
fn set_place(index: &mut BTreeMap<u32, usize>, id: u32, place: usize)
    requires { IsSome (get nat_cmp index.old id) }
    ensures here { get nat_cmp index.new id ≡ Some place }
    ensures others { (other : ℕ) → other ≢ id → get nat_cmp index.new other ≡ get nat_cmp index.old other }
{
    if let Some(old) = index.get_mut(&id) {
        *old = place;
    }
}
