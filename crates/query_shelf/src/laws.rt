//! What a range visits.
ghost use Rattle.std.specs.Prelude.{ℕ, List};
ghost use Rattle.page_laws.specs.declared.root.Root.{Root};
ghost use Rattle.bptree_node.specs.Trees.{HaveCornersAt, IsCoveredAt, list_at};
ghost use Rattle.box_corner.specs.CurveBoxes.{AreKeys};
ghost use Rattle.box_corner.specs.Shelves.{AreCurveCorners};
ghost use Rattle.query_shelf.specs.Regions.{meets_box, has_key};

use box_corner::{boxes_bound_their_cells, corners_are_the_box};
use curve_laws::Curve;

/// That a range visits each branch under which there is a key that it may have, as a contract: the call
/// does nothing.
///
/// In a tree with exact boxes, whose keys are keys of the curve, the query meets the box of a branch if
/// it meets the cell of a key under it. So a walk of the region gives all keys that the region has.
pub fn ranges_cover_their_keys<C: Curve>(curve: &C)
    ensures { (pages : ℕ → List ℕ) (root : Root) (asked : List ℕ) (radius : ℕ)
        → HaveCornersAt (AreCurveCorners (C.axes curve.now) (C.bits curve.now) (C.key_of curve.now) (C.cell_of curve.now)) pages root.height root.page
        → AreKeys (C.axes curve.now) (C.bits curve.now) (list_at pages root)
        → IsCoveredAt (meets_box (C.axes curve.now) (C.bits curve.now) (C.cell_of curve.now) asked radius)
        (has_key (C.axes curve.now) (C.bits curve.now) (C.cell_of curve.now) asked radius) pages root.height root.page }
{
    corners_are_the_box(curve);
    boxes_bound_their_cells();
}
