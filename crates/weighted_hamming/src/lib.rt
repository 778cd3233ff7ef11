//! An example: the engines of the index with a metric of your own.
//!
//! Two steps lead there. [`WeightedHamming`] implements [`metric_laws::Metric`] and proves its laws: that is all that
//! the engines ask of a metric. [`StringIndex`] keeps strings as rows with their distances to pivots, and hands them
//! to [`nn_query::near_rows`]. What comes back is in the contract of [`StringIndex::nearest`]: exactly what a scan of
//! all strings would find, and how many distances were computed for it.
//!
//! For another metric, put yours in the place of `WeightedHamming`. `range_query` has ranges and joins over the same
//! rows.
#![tactic(auto)]

mod index;
mod metric;
#[cfg(test)]
mod tests;

pub use index::StringIndex;
pub use metric::WeightedHamming;
pub use nn_query::NearAnswer;
