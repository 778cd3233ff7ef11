//! Pages that a change is made of: what the layers above may rely on, however the pages are kept.
#![tactic(auto)]

mod bytes;
mod errors;
mod pages;
mod plain_pages;
mod root;
mod rule;

pub use bytes::are_zero;
pub use errors::{PageError, TreeError};
pub use pages::{CHANGE_LIMIT, PAGE_SIZE, Pages};
pub use plain_pages::PlainPages;
pub use root::Root;
pub use rule::Rule;
