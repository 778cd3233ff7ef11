//! That rows come and go, and that each is found at its place.
ghost use Rattle.std.specs.Prelude.{◌≡◌, OnOk, IfOk, None};
ghost use Rattle.row_table.specs.Tables.{row_with};

use curve_laws::Vect;
use row_table::{Row, RowTable};
use spb_edge::{Bytes, Memory};
use std::alloc::Global;
use std::test::Fail;

/// A row whose object is one byte.
fn row(alloc: Global, id: u32, object: u8) -> Result<Row, Memory>
    ensures { IfOk result (λ row. row.id ≡ id) }
{
    Ok(Row {
        id,
        object: Bytes::of(alloc, &[object])?,
        vect: Vect::of(&[]),
    })
}

/// Adds a row of one byte to the table.
fn put(table: &mut RowTable, alloc: Global, id: u32, object: u8) -> Result<(), Fail> {
    if table.has(id) {
        return Err(Fail::new("the table has the id"));
    }
    table.insert(row(alloc, id, object)?)?;
    Ok(())
}

/// The byte of the row with the id.
fn object_of(table: &RowTable, id: u32) -> Option<u8> {
    let row = table.find(id)?;
    row.object.as_slice().first().copied()
}

/// A table of the rows 7, 4294967295 and 0, with the objects 1, 2 and 3.
fn three(alloc: Global) -> Result<RowTable, Fail> {
    let mut table = RowTable::new(alloc);
    put(&mut table, alloc, 7, 1)?;
    put(&mut table, alloc, 4294967295, 2)?;
    put(&mut table, alloc, 0, 3)?;
    Ok(table)
}

#[test]
fn rows_stand_as_they_came(rt: HostRuntime) -> Result<(), Fail> {
    let none = RowTable::new(rt.alloc());
    assert_eq!(rt; none.len(), 0);
    assert!(rt; none.rows().is_empty());
    let table = three(rt.alloc())?;
    assert_eq!(rt; table.len(), 3);
    let mut ids = Vec::new(rt.alloc());
    for row in table.rows() {
        ids.push(row.id)?;
    }
    assert!(rt; ids.as_slice() == [7, 4294967295, 0].as_slice());
    Ok(())
}

#[test]
fn one_goes_and_the_others_are_found(rt: HostRuntime) -> Result<(), Fail> {
    let rows = [(7, 1), (4294967295, 2), (0, 3)];
    for gone in [7, 4294967295, 0, 8] {
        let mut table = three(rt.alloc())?;
        let was_there = table.remove(gone);
        assert!(rt; was_there == (gone != 8), "{gone}");
        assert!(rt; table.len() == if was_there { 2 } else { 3 }, "{gone}");
        for (id, object) in rows {
            let found = object_of(&table, id);
            assert!(rt;
                found == if id == gone { None } else { Some(object) },
                "{id} without {gone}"
            );
        }
        assert!(rt; !table.remove(gone), "{gone}");
    }
    Ok(())
}

#[test]
fn all_go_and_one_comes_back(rt: HostRuntime) -> Result<(), Fail> {
    for order in [[7, 4294967295, 0], [0, 4294967295, 7], [4294967295, 7, 0]] {
        let mut table = three(rt.alloc())?;
        for id in order {
            assert!(rt; table.remove(id), "{id}");
            assert!(rt; !table.has(id), "{id}");
        }
        assert!(rt; table.rows().is_empty());
        put(&mut table, rt.alloc(), 7, 9)?;
        assert!(rt; object_of(&table, 7) == Some(9));
        assert_eq!(rt; table.len(), 1);
    }
    Ok(())
}
