//! What the program means: its state, its commands and their replies.
//!
//! The definitions are in `specs/` and speak of lists and whole numbers alone. Here are the types that they share with
//! the code.
#![tactic(auto)]

mod laws;
mod rows;

use answer_lists::{Ids, Pairs, Ranks};
pub use laws::{
    limits, pivots_are_farthest_first, reached_states, refusals_change_nothing, states_are_kept,
    words_are_spelled,
};
use metrics_builtin::Space;
pub use rows::{
    worked_file_uses, worked_files, worked_kinds, worked_pivots, worked_rows, worked_samples,
    worked_words,
};
use spb_edge::Bytes;

/// The longest line, in bytes without its LF.
pub const LINE_LIMIT: usize = 16_384;

/// The most objects of a store, over all collections: the cap of a store in memory.
pub const MEMORY_CAP: usize = 65_536;

/// The most samples that are kept.
pub const SAMPLE_LIMIT: usize = 4_096;

/// The most ranks that are asked for at once.
pub const NEAR_LIMIT: u32 = 65_536;

/// The most pivots of a store.
pub const PIVOT_LIMIT: u64 = 8;

/// The store in memory that the words of the program ask for: its space, and how many pivots are wanted,
/// 0 to 8.
#[derive(Clone, Copy, Debug, PartialEq, Eq)]
pub struct MemorySetup {
    pub space: Space,
    pub pivots: u8,
}

/// The curve by which a store in a file keeps its objects in order.
#[derive(Clone, Copy, Debug, PartialEq, Eq)]
pub enum CurveKind {
    /// The Z-order curve, over which joins are answered.
    Z,
    /// The Hilbert curve.
    Hilbert,
}

/// What the words of the program ask for. The file that they name, if any, is handed to the program as a disk.
#[derive(Clone, Copy, Debug, PartialEq, Eq)]
pub enum Asked {
    /// Answers a script from an empty store in memory.
    Mem(MemorySetup),
    /// Makes a store in a file: by this curve, with at most this many pivots (1 to 8) and objects (1 to 65536), of this
    /// space.
    Make {
        curve: CurveKind,
        pivots: u8,
        cap: u32,
        space: Space,
    },
    /// Answers a script on a store in a file.
    Run,
    /// Checks a store in a file.
    Check,
    /// Makes a store in a file and runs a generated script on it, of this many objects (1 to 65536).
    Trial {
        seed: u64,
        count: u32,
    },
}

/// The file on which the words of the program work, and whether it is there before.
#[derive(Debug, Drop)]
pub enum FileUse {
    /// The words need no file, or aren't in the grammar.
    None,
    /// The store in the file of this name is opened.
    Old(Bytes),
    /// A store is made in the file of this name.
    New(Bytes),
}

/// A line that is a command. A collection `c` or `d` is 0 to 3.
#[derive(Debug, Drop)]
pub enum Command {
    /// Keeps the object as a sample.
    Sample { object: Bytes },
    /// Adds the object to collection `c` under the id.
    Add { c: u8, id: u32, object: Bytes },
    /// Takes the object with the id out of collection `c`.
    Discard { c: u8, id: u32 },
    /// Asks for the object of collection `c` with the id.
    Get { c: u8, id: u32 },
    /// Asks how many objects collection `c` has.
    Count { c: u8 },
    /// Asks for the ids of collection `c` within the radius `r` of the object.
    Range { c: u8, r: u32, object: Bytes },
    /// Asks for the `k` ids of collection `c` that are nearest to the object, 1 to 65536.
    Near { c: u8, k: u32, object: Bytes },
    /// Asks for the pairs of an id of collection `c` and one of `d` within the radius `r` of each other.
    Join { c: u8, d: u8, r: u32 },
}

/// What fails first in a line that is no command.
#[derive(Clone, Copy, Debug, PartialEq, Eq)]
pub enum What {
    /// The command's name or the number of its words.
    Command,
    /// A collection that isn't 0, 1, 2 or 3.
    Collection,
    /// An id that isn't a number of at most 4294967295.
    Id,
    /// A radius that isn't such a number, or a number of ranks that isn't 1 to 65536.
    Number,
    /// A text that isn't that of an object of the space.
    Object,
}

/// The answer to a range query.
#[derive(Debug, Drop)]
pub struct RangeAnswer {
    /// The ids of the objects within the radius, ascending.
    pub ids: Ids,
    /// How many distances were computed, those to the pivots among them.
    pub evals: u64,
    /// How many objects are within the radius by the pivots alone.
    pub sure: u64,
}

/// The answer to a query for the nearest neighbours.
#[derive(Debug, Drop)]
pub struct NearAnswer {
    /// Each as its distance and id, by distance and then by id.
    pub rows: Ranks,
    /// How many distances were computed, those to the pivots among them.
    pub evals: u64,
}

/// The answer to a similarity join.
#[derive(Debug, Drop)]
pub struct JoinAnswer {
    /// The pairs of ids within the radius of each other, in order.
    pub pairs: Pairs,
    /// How many distances were computed.
    pub evals: u64,
    /// How many pairs are within the radius by the pivots alone.
    pub sure: u64,
}

/// What a line is answered.
#[derive(Debug, Drop)]
pub enum Reply {
    /// The change was made, or the sample was kept.
    Done,
    /// The collection has the id already.
    Exists,
    /// The collection doesn't have the id.
    Absent,
    /// The store has as many objects as it may have, or there are as many samples.
    Full,
    /// The store's curve isn't one to join over.
    Curve,
    /// The samples are closed.
    Late,
    /// The object that was asked for.
    Object(Bytes),
    /// How many objects the collection has.
    Count(u32),
    /// The ids within the radius, ascending; how many distances were computed; how many objects are
    /// within without one.
    Range { ids: Ids, evals: u64, sure: u64 },
    /// The nearest, each as its distance and id, by distance and then by id; how many distances
    /// were computed.
    Near { rows: Ranks, evals: u64 },
    /// The pairs of ids within the radius, in order; how many distances were computed; how many pairs are within
    /// without one.
    Join { pairs: Pairs, evals: u64, sure: u64 },
    /// The line is no command, and this fails first in it.
    Bad(What),
    /// The line is too long.
    Long,
}
