//! The nodes of B+-trees on pages: how a page spells a leaf or an inner node, what a tree is, and what
//! the crates above need of the boxes and regions of a tree's keys.
#![tactic(auto)]

mod boxes;
mod laws;
mod layout;
mod node;
mod region;
mod rows;
mod summary;
mod writers;

pub use boxes::Boxes;
pub use laws::worked_rows;
pub use layout::{
    BRANCH_SIZE, ENTRY_SIZE, HEIGHT_LIMIT, LEAST_BRANCHES, LEAST_ENTRIES, MOST_BRANCHES,
    MOST_ENTRIES, ROWS_AT,
};
pub use node::{NodeFault, NodeView, leaf_entry, nodes_are_their_rows, read_node};
pub use region::Region;
pub use rows::{Branch, Entry};
pub use summary::{NoBox, Summary};
pub use writers::{write_inner, write_leaf};
