//! The boxes of curve trees.
ghost use Rattle.std.specs.Prelude.{◌≡◌, ℕ, ◌↔◌, List};
ghost use Rattle.bptree_node.specs.declared.rows.Entry.{Entry};
ghost use Rattle.bptree_node.specs.Summaries.{HasCorners};
ghost use Rattle.box_corner.specs.Boxes.{joined};
ghost use Rattle.box_corner.specs.CurveBoxes as words;
ghost use Rattle.box_corner.specs.CurveBoxes.{AreCorners, AreKeys, ReadBack};

use crate::Rect;
use bptree_node::{Boxes, Entry};
use curve_laws::Curve;

/// The boxes of curve trees: around the cells of the entries' keys, kept as the keys of two corners.
#[derive(Clone, Copy, Debug, PartialEq, Eq)]
pub struct CurveBoxes<'a, C> {
    /// The curve.
    pub curve: &'a C,
}

impl<'a, C: Curve> Boxes<Rect> for CurveBoxes<'a, C> {
    ghost use Rattle.box_corner.specs.CurveBoxes as words;
    ghost use Rattle.box_corner.specs.CurveBoxLaws.{box_laws};

    ghost entry_box = { λ f. words.entry_box (C.axes f.curve.now) (C.bits f.curve.now) (C.cell_of f.curve.now) };

    ghost branch_box = { λ f. words.branch_box (C.axes f.curve.now) (C.bits f.curve.now) (C.cell_of f.curve.now) };

    ghost keys_of = { λ f. words.keys_of (C.key_of f.curve.now) };

    ghost is_made = { λ f. words.IsMade (C.axes f.curve.now) (C.bits f.curve.now) };

    ghost width = { λ f. C.axes f.curve.now };

    ghost box_laws = { λ f. box_laws (C.axes f.curve.now) (C.bits f.curve.now) (C.key_of f.curve.now) (C.cell_of f.curve.now) (C.curve_laws f.curve.now) };

    fn of_entry(&self, e: &Entry) -> Option<Rect> {
        if !self.curve.has_key(e.key) {
            return None;
        }
        Some(Rect::of(&self.curve.cell(e.key)))
    }

    fn of_branch(&self, low: u64, high: u64) -> Option<Rect> {
        if !self.curve.has_key(low) || !self.curve.has_key(high) {
            return None;
        }
        Rect::from_keys(self.curve, low, high)
    }

    fn as_keys(&self, s: &Rect) -> (u64, u64) {
        s.to_keys(self.curve)
    }
}

/// That the corners of a curve tree's branches are those of the exact box, as a contract: the call
/// does nothing.
///
/// For entries whose keys are keys of the curve, the corners are the keys of the least and the
/// greatest values of each coordinate of their cells. Corners that a branch has read back as that box.
pub fn corners_are_the_box<C: Curve>(curve: &C)
    ensures exact { (entries : List Entry) (low high : ℕ) → AreKeys (C.axes curve.now) (C.bits curve.now) entries
        → (HasCorners joined (words.entry_box (C.axes curve.now) (C.bits curve.now) (C.cell_of curve.now)) (words.keys_of (C.key_of curve.now)) entries low high
        ↔ AreCorners (C.key_of curve.now) (C.cell_of curve.now) entries low high) }
    ensures read_back { (entries : List Entry) (low high : ℕ)
        → HasCorners joined (words.entry_box (C.axes curve.now) (C.bits curve.now) (C.cell_of curve.now)) (words.keys_of (C.key_of curve.now)) entries low high
        → ReadBack (C.axes curve.now) (C.bits curve.now) (C.cell_of curve.now) entries low high }
{}
