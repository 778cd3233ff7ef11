//! What a metric on byte strings is, and what measures by one and counts: the traits [`Metric`] and
//! [`Ruler`] with their laws.
#![tactic(auto)]

mod metric;
mod ruler;

pub use metric::{Metric, bounds_by_pivots, obeys_laws};
pub use ruler::{Counted, Ruler, Traced};
