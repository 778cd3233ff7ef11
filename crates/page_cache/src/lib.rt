//! A bounded cache of pages before a store of pages: the same pages, read again only where a list of the most recent ones
//! misses them.
#![tactic(auto)]

mod cached_pages;
mod gets;
mod laws;
mod puts;
mod recent;

pub use cached_pages::{CachedPages, MOST_ROOM};
pub use laws::{less_room_holds_the_first, misses_add_up, worked_misses};
