//! The curve and its laws.
ghost use Rattle.std.specs.Prelude.{◌≡◌, ℕ, ◌≤◌, List};
ghost use Rattle.curve_laws.specs.Grid.{IsCell, IsKey};
ghost use Rattle.curve_laws.specs.Vectors.{IsUpTo};
ghost use Rattle.z_curve.specs.ZOrder.{z_key, z_cell};
ghost use Rattle.z_curve.specs.ZLaws.{is_curve};

use crate::spacing::{gather, spread};
use curve_laws::{Curve, Grid, Vect};

/// A Z-order curve over `n` coordinates of `b` bits each.
///
/// A key is made of `b` groups of `n` bits, one for each place of the coordinates' bits, that of the
/// highest bits first. In a group the first coordinate gives the highest bit. A curve whose numbers
/// are out of range has no cells and no keys.
#[derive(Clone, Copy, Debug, PartialEq, Eq)]
pub struct ZCurve {
    /// How many coordinates a cell has, 1 to 8.
    pub n: u8,
    /// How many bits a coordinate has, 1 to 32, with `n * b` at most 64.
    pub b: u8,
}

impl Curve for ZCurve {
    ghost axes = { λ c. c.n };

    ghost bits = { λ c. c.b };

    ghost key_of = { λ c. z_key c.b };

    ghost cell_of = { λ c. z_cell c.n c.b };

    ghost curve_laws = { λ c. is_curve c.n c.b };

    /// Whether the curve is in range and the vector has `n` coordinates below `2^b`. It looks at each
    /// coordinate once.
    fn has_cell(&self, v: &Vect) -> bool {
        self.grid().has_cell(v)
    }

    /// Whether the curve is in range and the number is below `2^(n*b)`. Constant time.
    fn has_key(&self, key: u64) -> bool {
        self.grid().has_key(key)
    }

    /// The key of a cell. It takes some 20 instructions for each coordinate.
    fn key(&self, v: &Vect) -> u64 {
        let coordinates = v.as_slice();
        match self.n {
            1 => self.interleaved::<1>(coordinates),
            2 => self.interleaved::<2>(coordinates),
            3 => self.interleaved::<3>(coordinates),
            4 => self.interleaved::<4>(coordinates),
            5 => self.interleaved::<5>(coordinates),
            6 => self.interleaved::<6>(coordinates),
            7 => self.interleaved::<7>(coordinates),
            _ => self.interleaved::<8>(coordinates),
        }
    }

    /// The cell of a key. It takes some 20 instructions for each coordinate.
    fn cell(&self, key: u64) -> Vect {
        match self.n {
            1 => self.separated::<1>(key),
            2 => self.separated::<2>(key),
            3 => self.separated::<3>(key),
            4 => self.separated::<4>(key),
            5 => self.separated::<5>(key),
            6 => self.separated::<6>(key),
            7 => self.separated::<7>(key),
            _ => self.separated::<8>(key),
        }
    }
}

impl ZCurve {
    /// The keys of two cells, the first of which exceeds the second in no coordinate: each vector
    /// between them has its key between these two. It costs two calls of `key`.
    pub fn corner_keys(&self, low: &Vect, high: &Vect) -> (u64, u64)
        requires low_cell { IsCell self.now.n self.now.b low.now }
        requires high_cell { IsCell self.now.n self.now.b high.now }
        requires ordered { IsUpTo low.now high.now }
        ensures low { result.0 ≡ z_key self.now.b low.now }
        ensures high { result.1 ≡ z_key self.now.b high.now }
        ensures between { (v : List ℕ) → IsUpTo low.now v → IsUpTo v high.now → (result.0 ≤ z_key self.now.b v) × (z_key self.now.b v ≤ result.1) }
    {
        (self.key(low), self.key(high))
    }

    /// The law of the order, as a contract: of two cells, the one that exceeds the other in no coordinate has no
    /// greater key. The call does nothing.
    pub fn keeps_order(&self)
        ensures { (v w : List ℕ) → IsCell self.now.n self.now.b w → IsUpTo v w → z_key self.now.b v ≤ z_key self.now.b w }
    {}

    // What the curve numbers.
    fn grid(&self) -> Grid
        ensures axes { result.n ≡ self.now.n }
        ensures bits { result.b ≡ self.now.b }
    {
        Grid {
            n: self.n,
            b: self.b,
        }
    }

    // The key of a cell. `N` is the curve's `n`, so that the compiler knows it.
    fn interleaved<const N: usize>(&self, coordinates: &[u32]) -> u64
        requires count { self.now.n ≡ N }
        requires cell { IsCell self.now.n self.now.b coordinates.now }
        ensures { result ≡ z_key self.now.b coordinates.now }
    {
        let mut key = 0;
        for coordinate in coordinates {
            key = (key << 1) + spread::<N>(*coordinate);
        }
        key
    }

    // The cell of a key. `N` is the curve's `n`, so that the compiler knows it.
    fn separated<const N: usize>(&self, key: u64) -> Vect
        requires count { self.now.n ≡ N }
        requires key { IsKey self.now.n self.now.b key }
        ensures { result ≡ z_cell self.now.n self.now.b key }
    {
        let mut coordinates = [0; N];
        for (place, coordinate) in coordinates.iter_mut().enumerate() {
            *coordinate = gather::<N>(key >> (N - 1 - place));
        }
        Vect::of(&coordinates)
    }
}
