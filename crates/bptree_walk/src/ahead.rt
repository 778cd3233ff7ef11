//! The nodes that a walk still has to visit.

/// A node that is still to be visited.
#[derive(Clone, Copy, Debug, Default, PartialEq, Eq)]
pub struct Ahead {
    /// The node's page.
    pub page: u32,
    /// Its level: leaves are at 0.
    pub level: u8,
    /// The page that names it: its parent's, or 1 for the root.
    pub parent: u32,
}
