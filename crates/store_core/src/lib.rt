//! A store in a file: how it is opened.
#![tactic(auto)]

mod admission;
mod content;
mod errors;
mod finish;
mod laws;
mod opened_laws;
mod opening;
mod paging;
mod slots;
mod steps;

pub use errors::OpenError;
pub use laws::{started_breaks_alike, started_is_not_refused};
pub use opened_laws::{opened_or_damaged, started_is_opened};
pub use opening::{Opening, OpeningParts};
