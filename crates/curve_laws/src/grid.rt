//! The grid that a curve numbers.
ghost use Rattle.std.specs.Prelude.{◌^◌, ◌<◌, ◌≤◌, ◌↔◌, IsTrue, All};
ghost use Rattle.curve_laws.specs.Grid.{IsGrid, IsCell, IsKey};

use crate::Vect;

/// The cells of `n` coordinates of `b` bits each. A grid whose numbers are out of range has no cells
/// and no keys.
#[derive(Clone, Copy, Debug, PartialEq, Eq)]
pub struct Grid {
    /// How many coordinates a cell has, 1 to 8.
    pub n: u8,
    /// How many bits a coordinate has, 1 to 32, with `n * b` at most 64.
    pub b: u8,
}

impl Grid {
    /// Whether the numbers of the grid are in range. Constant time.
    pub fn is_in_range(&self) -> bool
        ensures { IsTrue result ↔ IsGrid self.now.n self.now.b }
    {
        let bits = u32::from(self.n) * u32::from(self.b);
        1 <= self.n && self.n <= 8 && 1 <= self.b && self.b <= 32 && bits <= 64
    }

    /// Whether the grid is in range and the vector has `n` coordinates below `2^b`. It looks at each
    /// coordinate once.
    pub fn has_cell(&self, v: &Vect) -> bool
        ensures { IsTrue result ↔ IsCell self.now.n self.now.b v.now }
    {
        let coordinates = v.as_slice();
        self.is_in_range() && coordinates.len() == self.n as usize && are_below(coordinates, self.b)
    }

    /// Whether the grid is in range and the number is below `2^(n*b)`. Constant time.
    pub fn has_key(&self, key: u64) -> bool
        ensures { IsTrue result ↔ IsKey self.now.n self.now.b key }
    {
        self.is_in_range() && key <= u64::MAX >> (64 - u32::from(self.n) * u32::from(self.b))
    }
}

// Whether each coordinate has at most `bits` bits.
fn are_below(coordinates: &[u32], bits: u8) -> bool
    requires some { 0 < bits }
    requires few { bits ≤ 32 }
    ensures { IsTrue result ↔ All (λ x. x < 2 ^ bits) coordinates.now }
{
    coordinates
        .iter()
        .all(|coordinate| is_below(*coordinate, bits))
}

// Whether the coordinate has at most `bits` bits.
fn is_below(coordinate: u32, bits: u8) -> bool
    requires some { 0 < bits }
    requires few { bits ≤ 32 }
    ensures { IsTrue result ↔ coordinate < 2 ^ bits }
{
    coordinate <= u32::MAX >> (32 - bits)
}
