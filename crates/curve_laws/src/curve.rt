//! What a curve is.
ghost use Rattle.std.specs.Prelude.{◌≡◌, ℕ, ◌↔◌, IsTrue, List, length};
ghost use Rattle.curve_laws.specs.Grid.{IsCell, IsKey};
ghost use Rattle.curve_laws.specs.Laws.{IsCurve};
ghost use Rattle.curve_laws.specs.Vectors.{IsUpTo, low_corner, high_corner};

use crate::Vect;

/// A numbering of the cells of a grid, whose laws are proved for each type that implements it.
///
/// Each cell has one key and each key one cell. Which vectors are cells and which numbers are keys
/// depends on the number of axes and of bits alone, as for a `Grid`, and can be asked, so that what
/// was read from outside can be tested before it is used.
pub trait Curve: Copy {
    // how many coordinates a cell has
    ghost axes: { Self → ℕ };

    // how many bits a coordinate has
    ghost bits: { Self → ℕ };

    // the key of a cell
    ghost key_of: { Self → List ℕ → ℕ };

    // the cell of a key
    ghost cell_of: { Self → ℕ → List ℕ };

    /// Whether the vector is a cell of the curve.
    fn has_cell(&self, v: &Vect) -> bool
        ensures { IsTrue result ↔ IsCell (axes self.now) (bits self.now) v.now };

    /// Whether the number is a key of the curve.
    fn has_key(&self, key: u64) -> bool
        ensures { IsTrue result ↔ IsKey (axes self.now) (bits self.now) key };

    /// The key of a cell.
    fn key(&self, v: &Vect) -> u64
        requires { IsCell (axes self.now) (bits self.now) v.now }
        ensures { result ≡ key_of self.now v.now };

    /// The cell of a key.
    fn cell(&self, key: u64) -> Vect
        requires { IsKey (axes self.now) (bits self.now) key }
        ensures { result ≡ cell_of self.now key };

    // keys and cells belong to each other, one to one
    ghost curve_laws: { (c : Self) → IsCurve (axes c) (bits c) (key_of c) (cell_of c) };
}

/// The laws of any curve, as a contract: the call does nothing.
///
/// Its cells and keys belong to each other, one to one. All cells have as many coordinates as the
/// curve has axes, each vector that exceeds a cell in no coordinate is a cell, and so are the least
/// and the greatest values of each coordinate of two cells.
pub fn obeys_laws<C: Curve>(curve: &C)
    ensures one_to_one { IsCurve (C.axes curve.now) (C.bits curve.now) (C.key_of curve.now) (C.cell_of curve.now) }
    ensures axes { (v : List ℕ) → IsCell (C.axes curve.now) (C.bits curve.now) v → length v ≡ C.axes curve.now }
    ensures up_to { (v w : List ℕ) → IsCell (C.axes curve.now) (C.bits curve.now) w → IsUpTo v w → IsCell (C.axes curve.now) (C.bits curve.now) v }
    ensures corners { (v w : List ℕ) → IsCell (C.axes curve.now) (C.bits curve.now) v → IsCell (C.axes curve.now) (C.bits curve.now) w
        → IsCell (C.axes curve.now) (C.bits curve.now) (low_corner v w) × IsCell (C.axes curve.now) (C.bits curve.now) (high_corner v w) }
{}
