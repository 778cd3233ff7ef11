//! The file of an empty store.
//!
//! A file is made in three steps, each of which is synced before the next one: room for the first page,
//! all pages but the first, and the magic. A file without its magic is no store, so a stop on the way
//! leaves either no store or the whole one.
#![tactic(auto)]

mod empty_store;
mod errors;
mod new_file;
mod steps;

pub use empty_store::format;
pub use errors::FormatError;
