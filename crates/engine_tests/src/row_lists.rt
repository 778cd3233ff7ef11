//! That rows are put in order at once, and that they come and go at either end and in the middle.
ghost use Rattle.std.specs.Prelude.{◌≡◌, IfOk};
ghost use Rattle.row_list.specs.Slotted.{HasAscendingSlots};

use curve_laws::Vect;
use row_list::{ListError, Place, Row, RowList, SlottedRow};
use spb_edge::{Bytes, Memory};
use std::alloc::Global;
use std::test::Fail;

/// A row without cells whose object is one byte.
fn row(alloc: Global, id: u32) -> Result<Row, Memory>
    ensures { IfOk result (λ row. row.id ≡ id) }
{
    Ok(Row {
        id,
        object: Bytes::of(alloc, &[1])?,
        vect: Vect::of(&[]),
    })
}

/// The same with its slot.
fn slotted(alloc: Global, slot: u32, id: u32) -> Result<SlottedRow, Memory>
    ensures { IfOk result (λ row. row.slot ≡ slot) }
{
    Ok(SlottedRow {
        slot,
        row: row(alloc, id)?,
    })
}

/// Rows of these ids in the slots 0, 4 and 9.
fn three(alloc: Global, ids: &[u32; 3]) -> Result<Vec<SlottedRow>, Memory>
    ensures { IfOk result (λ rows. HasAscendingSlots rows.items) }
{
    let mut rows = Vec::new(alloc);
    rows.push(slotted(alloc, 0, ids[0])?)?;
    rows.push(slotted(alloc, 4, ids[1])?)?;
    rows.push(slotted(alloc, 9, ids[2])?)?;
    Ok(rows)
}

/// The list of these rows.
fn list_of(alloc: Global, ids: &[u32; 3]) -> Result<RowList, ListError> {
    RowList::from_rows(alloc, three(alloc, ids)?)
}

/// Whether the list has these ids, each with this slot, in this order, and no others.
fn is_list(list: &RowList, wanted: &[(u32, u32)]) -> bool {
    for (place, row) in list.rows().iter().enumerate() {
        if wanted.get(place) != Some(&(row.id, list.slot(place))) {
            return false;
        }
    }
    list.len() == wanted.len()
}

/// Inserts a row of one byte.
fn put(list: &mut RowList, alloc: Global, id: u32, slot: u32) -> Result<(), Fail> {
    let row = row(alloc, id)?;
    list.reserve_one()?;
    let Place::Absent(place) = list.find(row.id) else {
        return Err(Fail::new("the list has the id"));
    };
    list.insert(place, row, slot);
    Ok(())
}

/// Removes the row with the id.
fn take(list: &mut RowList, id: u32) {
    if let Place::Found(place) = list.find(id) {
        list.remove(place);
    }
}

#[test]
fn rows_are_put_in_order(rt: HostRuntime) -> Result<(), Fail> {
    let none = RowList::new(rt.alloc());
    assert!(rt; is_list(&none, &[]));
    let list = list_of(rt.alloc(), &[4294967295, 0, 300])?;
    assert!(rt; is_list(&list, &[(0, 4), (300, 9), (4294967295, 0)]));
    assert!(rt; list.find(300) == Place::Found(1));
    assert!(rt; list.find(301) == Place::Absent(2));
    Ok(())
}

#[test]
fn an_id_that_repeats(rt: HostRuntime) -> Result<(), Fail> {
    for (ids, slot) in [([7, 2, 7], 9), ([7, 7, 2], 4), ([2, 7, 7], 9)] {
        assert!(rt; list_of(rt.alloc(), &ids).err() == Some(ListError::Repeated { slot }));
    }
    Ok(())
}

#[test]
fn rows_come_and_go(rt: HostRuntime) -> Result<(), Fail> {
    let mut list = list_of(rt.alloc(), &[20, 10, 30])?;
    for (id, slot) in [(5, 1), (25, 2), (40, 3)] {
        put(&mut list, rt.alloc(), id, slot)?;
    }
    assert!(rt;
        is_list(
            &list,
            &[(5, 1), (10, 4), (20, 0), (25, 2), (30, 9), (40, 3)]
        )
    );
    for id in [5, 20, 40] {
        take(&mut list, id);
    }
    assert!(rt; is_list(&list, &[(10, 4), (25, 2), (30, 9)]));
    Ok(())
}
