//! How nodes are laid out on pages.

/// The first byte of a leaf.
pub const LEAF: u8 = 1;

/// The first byte of an inner node.
pub const INNER: u8 = 2;

/// At which byte of a page the entries or branches begin.
pub const ROWS_AT: usize = 32;

/// How many bytes an entry has.
pub const ENTRY_SIZE: usize = 16;

/// How many bytes a branch has.
pub const BRANCH_SIZE: usize = 32;

/// How many entries a leaf has at most.
pub const MOST_ENTRIES: usize = 30;

/// How many entries a leaf that isn't the root has at least.
pub const LEAST_ENTRIES: usize = 15;

/// How many branches an inner node has at most.
pub const MOST_BRANCHES: usize = 14;

/// How many branches an inner node that isn't the root has at least. The root has at least two.
pub const LEAST_BRANCHES: usize = 7;

/// How many levels a tree has at most.
pub const HEIGHT_LIMIT: u8 = 5;
