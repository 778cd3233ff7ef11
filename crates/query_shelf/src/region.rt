//! The entries that a range may have.
ghost use Rattle.std.specs.Prelude.{◌≡◌, length};

use box_corner::{CurveBoxes, Rect};
use bptree_node::{Boxes, Region};
use curve_laws::{Curve, Vect};
use pivot_map::meets;

/// The keys whose cells a query meets, by its distances to the pivots and the radius, and all numbers
/// that are no keys of the curve.
#[derive(Drop)]
pub struct QueryRegion<'a, C: Curve> {
    /// The curve.
    pub curve: &'a C,
    /// The query's distances to the pivots: as many as the curve has coordinates.
    pub asked: &'a Vect,
    /// The radius.
    pub r: u32,
    ghost fits: { length asked.now ≡ C.axes curve.now },
}

impl<'a, C: Curve> Region for QueryRegion<'a, C> {
    ghost use Rattle.query_shelf.specs.Regions as words;

    ghost meets_box = { λ g. words.meets_box (C.axes g.curve.now) (C.bits g.curve.now) (C.cell_of g.curve.now) g.asked.now g.r };

    ghost has_key = { λ g. words.has_key (C.axes g.curve.now) (C.bits g.curve.now) (C.cell_of g.curve.now) g.asked.now g.r };

    fn meets(&self, low: u64, high: u64) -> bool {
        match (CurveBoxes { curve: self.curve }).of_branch(low, high) {
            Some(corners) => corners.meets_region(self.asked, self.r),
            None => true,
        }
    }

    fn has(&self, key: u64) -> bool {
        !self.curve.has_key(key) || meets(self.asked, &self.curve.cell(key), self.r)
    }
}
