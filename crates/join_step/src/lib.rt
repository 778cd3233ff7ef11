//! One step of a merge join: an entry that comes to a window, and the verdicts on its pairs with the entries there that
//! reach its key.
#![tactic(auto)]

mod placing;
mod step;

pub use placing::Placing;
pub use query_shelf::QueryError;
pub use step::meet;
