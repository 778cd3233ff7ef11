//! B+-trees read: one entry found, the entries of a region, and all entries in order, one at a time.
#![tactic(auto)]

mod ahead;
mod cursor;
mod entries;
mod everything;
mod finding;
mod leaf;
mod node;
mod visit;
mod walking;

pub use cursor::Cursor;
pub use entries::Entries;
pub use finding::find;
pub use walking::walk;
