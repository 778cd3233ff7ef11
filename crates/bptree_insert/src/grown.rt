//! What an insertion does to a node.

use bptree_edit::Part;
use bptree_node::Entry;

/// An entry to insert, and its summary.
#[derive(Clone, Copy, Debug)]
pub(crate) struct Boxed<S> {
    pub(crate) entry: Entry,
    pub(crate) summary: S,
}

/// What an insertion made of a node.
#[derive(Clone, Copy, Debug)]
pub(crate) enum Grown<S> {
    /// The node has the entry under it. Its branch stays as it is: the first key and id and the summary
    /// are the same.
    Same,
    /// The node, on its page, has the entry under it.
    Whole,
    /// The node was split: what stays on its page, and what is behind that on a page that was taken.
    Split(Part<S>, Part<S>),
}
