//! The k nearest by a best-first search of what a queue holds: objects, and nodes over them.
#![tactic(auto)]

mod best;
mod hierarchy;
mod queue;
mod search;

pub use best::Best;
pub use hierarchy::Hierarchy;
pub use queue::{Kind, Queue, Waiting};
pub use search::{VisitCount, visit_in_order};
