//! What a store's file stands for whose trees name its objects.
#![tactic(auto)]

mod laws;

pub use laws::{
    empty_trees_are_kept, objects_have_cells, one_leaf_is_a_tree, one_tree_state,
    store_curves_are_curves, tree_store_is_state, trees_kept_moved, worked_trees,
};
