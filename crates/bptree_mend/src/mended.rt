//! What two neighbours become.

use bptree_edit::Part;

/// What became of two neighbours.
#[derive(Clone, Copy, Debug)]
pub enum Mended<S> {
    /// The first page has the rows of both, and the second one was given back.
    Joined(Part<S>),
    /// Each page has a half of the rows.
    Evened(Part<S>, Part<S>),
}
