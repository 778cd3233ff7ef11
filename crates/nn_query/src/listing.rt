//! The items of a search through rows.
ghost use Rattle.std.specs.Prelude.{◌≡◌, ◌^◌, ◌≤◌, length, map, All, IfOk};
ghost use Rattle.near_search.specs.Queue.{as_waiting};
ghost use Rattle.nn_query.specs.Listed.{candidates_for};

use curve_laws::Vect;
use near_search::{Kind, Waiting};
use pivot_map::{Row, lower};
use spb_edge::Memory;
use std::alloc::Global;
use std::cmp::Reverse;

/// The object of each row, in the order of the rows. It takes time in proportion to the rows, and memory for 16 bytes
/// each.
pub(crate) fn items_of_rows(
    alloc: Global,
    rows: &[Row],
    asked: &Vect,
) -> Result<Vec<Reverse<Waiting>>, Memory>
    requires few { length rows.now ≤ 2 ^ 31 }
    requires vects { All (λ (row : Row). length row.vect ≡ length asked.now) rows.now }
    ensures { IfOk result (λ found. map (λ turned. turned.0) found.items ≡ map as_waiting (candidates_for asked.now 0 rows.now)) }
{
    let mut found = Vec::with_capacity(alloc, rows.len())?;
    for (place, row) in rows.iter().enumerate() {
        found.push(Reverse(Waiting {
            bound: lower(asked, &row.vect),
            kind: Kind::Object { id: row.id },
            place: place as u32,
        }))?;
    }
    Ok(found)
}
