//! Strings by their ids, and the nearest of them.
ghost use Rattle.std.specs.Prelude.{◌≡◌, ◌≢◌, ◌↔◌, ◌≤◌, [], length, IsTrue, None, IfSome, IfOk, OnErr, All};
ghost use Rattle.metrics_builtin.specs.Strings.{IsString};
ghost use Rattle.spb_defs.specs.Pivots.{cells_of};
ghost use Rattle.spb_defs.specs.Scans.{near_answer};
ghost use Rattle.pivot_map.specs.declared.row.Row.{Row};
ghost use Rattle.pivot_map.specs.Rows.{ArePivots, AreRows, entries_of};
ghost use Rattle.weighted_hamming.specs.Entries.{Adds};
ghost use Rattle.weighted_hamming.specs.Weighted.{weighted_dist};

use crate::metric::WeightedHamming;
use metric_laws::{Counted, Metric};
use nn_query::{NearAnswer, near_rows};
use pivot_map::{Row, map_object};
use spb_edge::{Bytes, Memory};
use std::alloc::Global;

/// Strings by their ids, each kept with its distances to the pivots.
///
/// The engines ask for at most 8 pivots that the metric admits, and for rows by these pivots, no two with one
/// id. The ghost fields say that this holds at every moment, so no caller of a method has to show it.
#[derive(Drop)]
pub struct StringIndex<'a> {
    alloc: Global,
    metric: WeightedHamming<'a>,
    pivots: Vec<Bytes>,
    rows: Vec<Row>,
    ghost are_pivots: { ArePivots (IsString (length metric.weights.now)) pivots.items },
    ghost are_rows: { AreRows (IsString (length metric.weights.now)) (weighted_dist metric.weights.now) pivots.items rows.items },
}

impl<'a> StringIndex<'a> {
    /// An index without strings. It answers `None` if there are more than 8 pivots, or one hasn't the length of
    /// the metric's strings.
    ///
    /// Good pivots are far from each other; `pivot_choice::choose` picks such ones from samples. None at all
    /// is allowed: then each search measures every string.
    pub fn new(
        alloc: Global,
        metric: WeightedHamming<'a>,
        pivots: Vec<Bytes>,
    ) -> Option<StringIndex<'a>>
        ensures parts { IfSome result (λ index. (index.metric ≡ metric.entry) × (index.pivots ≡ pivots) × (index.rows.items ≡ [])) }
        ensures none { result ≡ None → ArePivots (IsString (length metric.entry.weights.now)) pivots.items → ⊥ }
    {
        if pivots.len() > 8 || !pivots.iter().all(|pivot| metric.admits(pivot.as_slice())) {
            return None;
        }
        Some(StringIndex {
            alloc,
            metric,
            pivots,
            rows: Vec::new(alloc),
        })
    }

    /// Whether the string has the length of the metric's strings.
    pub fn admits(&self, string: &[u8]) -> bool
        ensures { IsTrue result ↔ IsString (length self.now.metric.weights.now) string.now }
    {
        self.metric.admits(string)
    }

    /// Puts a copy of the string under the id, and answers whether it did: a string of another length, an id
    /// that is taken, and a string past the 2^31st are refused. If memory runs out nothing changes.
    ///
    /// It measures the string with each pivot, once for all searches to come, and compares the id with all others;
    /// the crate `row_table` has an index of them.
    pub fn add(&mut self, id: u32, string: &[u8]) -> Result<bool, Memory>
        ensures ok { IfOk result (λ added.
            Adds added (length self.old.metric.weights.now) (id, string.now) (entries_of self.old.rows.items) (entries_of self.new.rows.items)) }
        ensures err { OnErr result (self.new.rows.items ≡ self.old.rows.items) }
        ensures kept { (self.new.metric ≡ self.old.metric) × (self.new.pivots ≡ self.old.pivots) }
    {
        if !self.metric.admits(string) {
            return Ok(false);
        }
        if self.rows.len() >= 1 << 31 {
            return Ok(false);
        }
        if !is_new(&self.rows, id) {
            return Ok(false);
        }
        let row = row_of(self.alloc, self.metric, &self.pivots, id, string)?;
        self.rows.push(row)?;
        Ok(true)
    }

    /// The `k` strings that are nearest to the query, or all where they are fewer, each as its distance and id,
    /// and how many distances were computed for it.
    ///
    /// The clause is the whole promise: `near_answer` is defined over the list of the entries alone. Its `rows` are
    /// the first `k` of all by distance and then by id, as if each distance had been computed; its `evals` count
    /// the pivots, and the strings that the pivots don't put behind the `k`-th.
    pub fn nearest(&self, query: &[u8], k: u32) -> Result<NearAnswer, Memory>
        requires query { IsString (length self.now.metric.weights.now) query.now }
        requires some { 1 ≤ k }
        ensures answer { IfOk result (λ answer.
            answer ≡ near_answer (weighted_dist self.now.metric.weights.now) self.now.pivots.items (entries_of self.now.rows.items) query.now k) }
    {
        let mut ruler = Counted::new(self.metric);
        near_rows(self.alloc, &self.rows, &self.pivots, &mut ruler, query, k)
    }
}

/// The row of a string that the metric admits.
fn row_of(
    alloc: Global,
    metric: WeightedHamming,
    pivots: &[Bytes],
    id: u32,
    string: &[u8],
) -> Result<Row, Memory>
    requires pivots { ArePivots (IsString (length metric.weights.now)) pivots.now }
    requires string { IsString (length metric.weights.now) string.now }
    ensures entry { IfOk result (λ row. (row.id ≡ id) × (row.object ≡ string.now)) }
    ensures cells { IfOk result (λ row. row.vect ≡ cells_of (weighted_dist metric.entry.weights.now) pivots.now string.now) }
{
    Ok(Row {
        id,
        object: Bytes::of(alloc, string)?,
        vect: map_object(&mut Counted::new(metric), pivots, string),
    })
}

/// Whether no row has the id.
fn is_new(rows: &[Row], id: u32) -> bool
    ensures { IsTrue result ↔ All (λ (row : Row). row.id ≢ id) rows.now }
{
    rows.iter().all(|row| row.id != id)
}
