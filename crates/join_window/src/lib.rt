//! The window of a merge join over a Z-order curve: the entries before one that may still pair with it or with a
//! later one, and the laws by which all other pairs of entries are left out.
//!
//! Entries come in order of their keys. An entry reaches up to the key of its upper corner: the vector that exceeds
//! its cell by the radius in each coordinate, but for the greatest coordinate of the curve. What meets it later has
//! no key above that one, so it leaves the window at the first key that is.
#![tactic(auto)]

mod corner;
mod laws;
mod window;

pub use corner::reach;
pub use laws::{later_entries_are_apart, window_pairs_are_whole, windows_hold_all};
pub use window::{Reaching, Window};
