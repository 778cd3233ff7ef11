//! A box, by its low and its high corner.
ghost use Rattle.std.specs.Prelude.{◌≡◌, ℕ, ◌≤◌, ◌+◌, ◌&&◌, IsTrue, List, [], ◌∷◌, ◌++◌, length, nat_le};
ghost use Rattle.curve_laws.specs.Grid.{IsCell, IsKey};
ghost use Rattle.spb_defs.specs.Pivots.{meets, lower_bound};
ghost use Rattle.box_corner.specs.Boxes.{Box, point, joined, is_up_to, between, box_meets, span_gap, box_bound, IsInBox, IsBoxOf};

use bptree_node::Summary;
use curve_laws::{Curve, Vect};
use std::marker::Model;

/// A box of cells: all vectors that are, in no coordinate, below the low corner or above the high one.
/// The low corner exceeds the high one in no coordinate. A box copies without memory.
#[derive(Clone, Copy, Debug, PartialEq, Eq)]
pub struct Rect {
    /// The least value of each coordinate.
    pub low: Vect,
    /// The greatest value of each coordinate.
    pub high: Vect,
}

impl Model for Rect {
    ghost use Rattle.box_corner.specs.Boxes.{Box};
    ghost use Rattle.box_corner.specs.Rects.{box_of_fields, IsRect, fields_of, fields_back};

    ghost Value = { Box };

    ghost view = { box_of_fields };

    ghost invariant = { IsRect };

    ghost inverse = { fields_of };

    ghost inverse_ok = { fields_back };
}

impl Rect {
    /// The box of one cell.
    pub fn of(v: &Vect) -> Rect
        ensures { result ≡ point v.now }
    {
        Rect { low: *v, high: *v }
    }

    /// Whether the box may hold a cell that a query meets, by the query's distances to the pivots and
    /// the radius: `low_i <= q_i + r` and `q_i <= high_i + r` for each coordinate, the sums taken in
    /// 64 bits. The query has as many coordinates as the box, and each is looked at once.
    pub fn meets_region(&self, q: &Vect, r: u32) -> bool
        requires { length q.now ≡ length self.now.low }
        ensures { result ≡ box_meets q.now r self.now }
    {
        let corners = self.low.as_slice().iter().zip(self.high.as_slice());
        q.as_slice()
            .iter()
            .zip(corners)
            .all(|(&asked, (&low, &high))| is_near(asked, low, high, r))
    }

    /// How far the box is from the query: the greatest `low_i - q_i` and `q_i - high_i` of a coordinate,
    /// or 0 if none is positive. It is at most the lower bound of each cell in the box. The query has as
    /// many coordinates as the box, and each is looked at once.
    pub fn lower_bound(&self, q: &Vect) -> u32
        requires { length q.now ≡ length self.now.low }
        ensures { result ≡ box_bound q.now self.now }
    {
        let mut most = 0;
        let corners = self.low.as_slice().iter().zip(self.high.as_slice());
        for (&asked, (&low, &high)) in q.as_slice().iter().zip(corners) {
            most = most.max(span_gap(asked, low, high));
        }
        most
    }

    /// The keys of the low and the high corner, which are cells of the curve. It costs two calls of
    /// `key`.
    pub fn to_keys<C: Curve>(&self, curve: &C) -> (u64, u64)
        requires low { IsCell (C.axes curve.now) (C.bits curve.now) self.now.low }
        requires high { IsCell (C.axes curve.now) (C.bits curve.now) self.now.high }
        ensures { result ≡ (C.key_of curve.now self.now.low, C.key_of curve.now self.now.high) }
    {
        (curve.key(&self.low), curve.key(&self.high))
    }

    /// The box between the cells of two keys of the curve, or None if the low one exceeds the high one
    /// in some coordinate. It costs two calls of `cell`.
    #[tactic(auto, using(crate::specs::BoxLaws::up_to_when_tested))]
    pub fn from_keys<C: Curve>(curve: &C, low: u64, high: u64) -> Option<Rect>
        requires low { IsKey (C.axes curve.now) (C.bits curve.now) low }
        requires high { IsKey (C.axes curve.now) (C.bits curve.now) high }
        ensures { result ≡ between (C.cell_of curve.now low) (C.cell_of curve.now high) }
    {
        let low = curve.cell(low);
        let high = curve.cell(high);
        if !is_up_to(&low, &high) {
            return None;
        }
        Some(Rect { low, high })
    }
}

impl Summary for Rect {
    ghost use Rattle.std.specs.Prelude.{length};
    ghost use Rattle.box_corner.specs.Boxes as words;
    ghost use Rattle.box_corner.specs.BoxLaws.{box_join_laws};

    ghost size = { λ b. length b.low };

    ghost joined = { words.joined };

    ghost join_laws = { box_join_laws };

    #[tactic(auto, using(crate::proofs::Corners::joining))]
    fn join(&self, other: &Rect) -> Rect {
        let mut low = [0; 8];
        let mut high = [0; 8];
        let mut count = 0;
        let lows = self.low.as_slice().iter().zip(other.low.as_slice());
        let highs = self.high.as_slice().iter().zip(other.high.as_slice());
        for ((&own_low, &other_low), (&own_high, &other_high)) in lows.zip(highs) {
            low[count] = own_low.min(other_low);
            high[count] = own_high.max(other_high);
            count += 1;
        }
        Rect {
            low: Vect::of(&low[..count]),
            high: Vect::of(&high[..count]),
        }
    }
}

// Whether no coordinate of the first vector exceeds that of the second.
fn is_up_to(v: &Vect, w: &Vect) -> bool
    requires { length v.now ≡ length w.now }
    ensures { result ≡ is_up_to v.now w.now }
{
    v.as_slice().iter().zip(w.as_slice()).all(|(a, b)| a <= b)
}

// Whether a number between these two is within the radius of the asked one. The sums are taken in 64 bits.
fn is_near(asked: u32, low: u32, high: u32, r: u32) -> bool
    ensures { result ≡ (nat_le low (asked + r) && nat_le asked (high + r)) }
{
    let r = u64::from(r);
    u64::from(low) <= u64::from(asked) + r && u64::from(asked) <= u64::from(high) + r
}

// How far the asked number is from the nearest one between these two.
fn span_gap(asked: u32, low: u32, high: u32) -> u32
    ensures { result ≡ span_gap asked (low, high) }
{
    asked.saturating_sub(high).max(low.saturating_sub(asked))
}

/// What a query's bound on a box says of the cells in it, as a contract: the call does nothing.
///
/// The bound of a box is at most that of each cell in it, and a box that holds a cell which the query
/// meets is met. The box of one cell has the cell's bound, and is met exactly if the cell is.
pub fn boxes_bound_their_cells()
    ensures bound { (asked v : List ℕ) (box : Box) → IsInBox v box → box_bound asked box ≤ lower_bound asked v }
    ensures met { (asked v : List ℕ) (radius : ℕ) (box : Box) → IsInBox v box → IsTrue (meets asked radius v) → IsTrue (box_meets asked radius box) }
    ensures point_bound { (asked v : List ℕ) → box_bound asked (point v) ≡ lower_bound asked v }
    ensures point_met { (asked v : List ℕ) (radius : ℕ) → box_meets asked radius (point v) ≡ meets asked radius v }
    ensures bounded { (asked : List ℕ) (radius : ℕ) (box : Box) → box_meets asked radius box ≡ nat_le (box_bound asked box) radius }
{}

/// That the box made of single cells by joining is the least one that holds them all, as a contract:
/// the call does nothing.
pub fn boxes_hold_their_cells()
    ensures one { (v : List ℕ) → IsBoxOf (point v) (v ∷ []) }
    ensures joined { (a b : Box) (xs ys : List (List ℕ)) → length a.low ≡ length b.low → IsBoxOf a xs → IsBoxOf b ys → IsBoxOf (joined a b) (xs ++ ys) }
    ensures unique { (a b : Box) (cells : List (List ℕ)) → IsBoxOf a cells → IsBoxOf b cells → a ≡ b }
{}
