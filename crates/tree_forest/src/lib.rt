//! Several trees on the pages of one pool.
#![tactic(auto)]

mod laws;

pub use laws::{
    forests_leave_room, other_pages_are_replaced, tree_is_replaced, trees_of_forests_are_live,
};
