//! What the queries over a shelf share: the cell of an entry, its object, and the entries that a range
//! may have.
#![tactic(auto)]

mod entries;
mod laws;
mod region;

pub use entries::{cell_of, read_object};
pub use laws::ranges_cover_their_keys;
pub use page_laws::TreeError as QueryError;
pub use region::QueryRegion;
