//! A session: one reply after the other, from one state to the next.
//!
//! Ranges, nearest objects and joins are answered with few distance computations, by the distances to the pivots. The
//! pivots are chosen when the samples close, at the first command that isn't a sample.
#![tactic(auto)]

mod endings;
mod file_lines;
mod file_objects;
mod file_queries;
mod file_session;
mod lines;
mod mem_session;
mod queries;
mod store;

pub use endings::Ending;
pub use file_session::FileSession;
pub use mem_session::MemSession;
pub use open_store::First;
