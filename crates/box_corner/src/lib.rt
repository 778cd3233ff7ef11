//! Boxes around cells: what the branches of a curve tree keep of the entries under them.
#![tactic(auto)]

mod curve_boxes;
mod id_boxes;
mod rect;

pub use curve_boxes::{CurveBoxes, corners_are_the_box};
pub use id_boxes::IdBoxes;
pub use rect::{Rect, boxes_bound_their_cells, boxes_hold_their_cells};
