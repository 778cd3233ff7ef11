//! A page file in which a change of up to 80 pages happens whole or not at all, whenever the
//! machine stops.
//!
//! A change is written into the journal first. A gate byte then says that the journal holds it, and
//! only then do the pages go to their places. Whoever opens the file later finishes what the gate
//! says.
#![tactic(auto)]

pub mod device;
mod errors;
mod header;
mod journal;
pub mod layout;
mod moves;
mod recovery;
mod staged;

pub use errors::{DiskFault, Field, GrowError, RecoverError, StageError};
pub use journal::{Journal, home_is_redone, home_survives, staging_joins_one, staging_lays_one};
