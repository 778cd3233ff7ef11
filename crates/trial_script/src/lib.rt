//! The script that a trial runs on a new store, and the line that it writes of the replies.
//!
//! A generator draws numbers from a seed, and four of them make an object. The samples come first, from which the
//! store's pivots are chosen, and then the objects of the commands.
#![tactic(auto)]

mod draws;
mod laws;
mod lines;
mod rows;
mod samples;
mod totals;
mod writing;

pub use laws::{lines_are_commands, totals_fit};
pub use lines::TrialLines;
use metrics_builtin::Space;
pub use rows::worked_trials;
pub use samples::trial_samples;
pub use totals::{Tally, Totals};

/// The space of a trial's objects: vectors of four components up to 1000.
pub const TRIAL_SPACE: Space = Space::L1 { dim: 4, most: 1000 };

/// How many samples are drawn.
pub const TRIAL_SAMPLES: usize = 16;

/// How many pivots are chosen from them.
pub const TRIAL_PIVOTS: u8 = 4;

/// The most objects of the store.
pub const TRIAL_CAP: u32 = 65_536;
