//! Where a tree begins.

/// The root of a tree on pages. The empty tree has height 0 and page 0.
#[derive(Clone, Copy, Debug, PartialEq, Eq)]
pub struct Root {
    /// The page of the root's node.
    pub page: u32,
    /// How many levels the tree has, leaves being at 1.
    pub height: u8,
}
