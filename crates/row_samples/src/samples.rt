//! Pivots and rows made of sample objects.
ghost use Rattle.std.specs.Prelude.{◌≡◌, ◌≢◌, [], ◌∷◌, IsTrue, IfOk, All};
ghost use Rattle.spb_defs.specs.Pivots.{cells_of};
ghost use Rattle.pivot_map.specs.declared.row.Row.{Row};
ghost use Rattle.pivot_map.specs.Rows.{ArePivots, AreRows, entries_of};

use metric_laws::{Counted, Metric};
use pivot_map::{Row, map_object};
use spb_edge::{Bytes, Memory};
use std::alloc::Global;
use std::test::Fail;

/// The object of two numbers: 4 bytes for each, the most significant first.
pub fn pair(x: u8, y: u8) -> [u8; 8]
    ensures { result ≡ 0 ∷ 0 ∷ 0 ∷ x ∷ 0 ∷ 0 ∷ 0 ∷ y ∷ [] }
{
    [0, 0, 0, x, 0, 0, 0, y]
}

/// Copies of the objects as pivots.
///
/// It fails the test if there are more than 8, the metric doesn't admit one, or memory runs out, and says
/// which.
pub fn pivots_of<M: Metric>(
    alloc: Global,
    metric: M,
    objects: &[[u8; 8]],
) -> Result<Vec<Bytes>, Fail>
    ensures pivots { IfOk result (λ pivots. ArePivots (M.admitted metric) pivots.items) }
    ensures objects { IfOk result (λ pivots. pivots.items ≡ objects.now) }
{
    let mut pivots = Vec::new(alloc);
    for object in objects {
        if pivots.len() == 8 {
            return Err(Fail::new("more than 8 sample pivots"));
        }
        if !metric.admits(object) {
            return Err(Fail::new("the metric doesn't admit a sample pivot"));
        }
        pivots.push(Bytes::of(alloc, object)?)?;
    }
    Ok(pivots)
}

/// Rows of the objects under their ids, in this order, each with its distances to the pivots.
///
/// It fails the test if there are more than 2^31, the metric doesn't admit one of the objects, two ids are
/// equal, or memory runs out, and says which. It compares each id with those before it.
pub fn rows_of<M: Metric>(
    alloc: Global,
    metric: M,
    pivots: &[Bytes],
    entries: &[(u32, [u8; 8])],
) -> Result<Vec<Row>, Fail>
    requires { ArePivots (M.admitted metric) pivots.now }
    ensures rows { IfOk result (λ rows. AreRows (M.admitted metric) (M.dist metric) pivots.now rows.items) }
    ensures entries { IfOk result (λ rows. entries_of rows.items ≡ entries.now) }
{
    let mut rows = Vec::new(alloc);
    for (id, object) in entries {
        if rows.len() == 1 << 31 {
            return Err(Fail::new("more than 2^31 sample rows"));
        }
        if !metric.admits(object) {
            return Err(Fail::new("the metric doesn't admit a sample object"));
        }
        if !is_new(&rows, *id) {
            return Err(Fail::new("two samples with one id"));
        }
        rows.push(row_of(alloc, metric, pivots, *id, object)?)?;
    }
    Ok(rows)
}

/// A row of an object that the metric admits.
fn row_of<M: Metric>(
    alloc: Global,
    metric: M,
    pivots: &[Bytes],
    id: u32,
    object: &[u8; 8],
) -> Result<Row, Memory>
    requires pivots { ArePivots (M.admitted metric) pivots.now }
    requires object { M.admitted metric object.now }
    ensures entry { IfOk result (λ row. (row.id ≡ id) × (row.object ≡ object.now)) }
    ensures cells { IfOk result (λ row. row.vect ≡ cells_of (M.dist metric) pivots.now object.now) }
{
    Ok(Row {
        id,
        object: Bytes::of(alloc, object)?,
        vect: map_object(&mut Counted::new(metric), pivots, object),
    })
}

/// Whether no row has the id.
fn is_new(rows: &[Row], id: u32) -> bool
    ensures { IsTrue result → All (λ (row : Row). row.id ≢ id) rows.now }
{
    rows.iter().all(|row| row.id != id)
}
