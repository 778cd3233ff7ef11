//! The distances of objects to the pivots, and the bounds that they set to a distance that wasn't computed.
#![tactic(auto)]

mod bounds;
mod row;
mod steps;
mod vectors;
mod verdict;

pub use answer_lists::{Ids, Pairs, Ranks};
pub use bounds::{bounds_hold, bounds_of_metric, verdicts_hold};
pub use curve_laws::{Curve, Vect};
pub use row::Row;
pub use steps::Steps;
pub use vectors::{lower, map_object, meets, sure};
pub use verdict::{PairTest, pair_test, test_pair, test_query};
