//! The rows of nodes.

/// A row of a leaf: an object's key, its id, and the slot that it is in.
#[derive(Clone, Copy, Debug, Default, PartialEq, Eq)]
pub struct Entry {
    /// The key, by which entries are in order.
    pub key: u64,
    /// The id, by which entries of one key are in order.
    pub id: u32,
    /// The slot.
    pub slot: u32,
}

/// A row of an inner node: the child, the key and the id of the first entry under it, and the two
/// corners of the box around all entries under it, as keys.
#[derive(Clone, Copy, Debug, Default, PartialEq, Eq)]
pub struct Branch {
    /// The key of the first entry under the child.
    pub key: u64,
    /// The id of the first entry under the child.
    pub id: u32,
    /// The child's page.
    pub child: u32,
    /// The key of the box's low corner.
    pub low: u64,
    /// The key of the box's high corner.
    pub high: u64,
}
