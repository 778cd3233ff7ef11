//! The curve.
ghost use Rattle.std.specs.Prelude.{◌≡◌, ◌<◌, ◌≤◌, ◌+◌, ◌*◌, ◌/◌, ◌%◌, ◌^◌, ◌==◌, if◌then◌else◌, All, length, Some};
ghost use Rattle.std.specs.Int.{bit_at};
ghost use Rattle.curve_laws.specs.Grid.{IsKey};
ghost use Rattle.hilbert_curve.specs.Curve.{IsStep, hilbert_cell, hilbert_key};
ghost use Rattle.hilbert_curve.specs.StepLaws.{axis_of};

use crate::lanes::{bits_at, packed, spread, unpacked};
use crate::walk::{group_to, walk_state};
use curve_laws::{Curve, Grid, Vect};

/// The Hilbert curve over `n` axes of `b` bits each.
///
/// It has cells and keys if `n` is 1 to 8, `b` is 1 to 32 and `n * b` at most 64. A cell has `n`
/// coordinates below `2^b`, and a key is a number below `2^(n*b)`.
#[derive(Clone, Copy, Debug, PartialEq, Eq)]
pub struct Hilbert {
    /// The number of axes.
    pub n: u8,
    /// The bits of a coordinate.
    pub b: u8,
}

// a walk at the curve's number of axes
macro_rules! by_axes {
    ($n:expr, $walk:ident($($argument:expr),*)) => {
        match $n {
            1 => $walk::<1>($($argument),*),
            2 => $walk::<2>($($argument),*),
            3 => $walk::<3>($($argument),*),
            4 => $walk::<4>($($argument),*),
            5 => $walk::<5>($($argument),*),
            6 => $walk::<6>($($argument),*),
            7 => $walk::<7>($($argument),*),
            8 => $walk::<8>($($argument),*),
            _ => unreachable!(),
        }
    };
}

impl Curve for Hilbert {
    ghost use Rattle.std.specs.Prelude.{ℕ, List};
    ghost use Rattle.hilbert_curve.specs.Curve.{hilbert_key, hilbert_cell};
    ghost use Rattle.hilbert_curve.specs.CurveLaws.{hilbert_is_curve};

    ghost axes = { λ c. c.n };

    ghost bits = { λ c. c.b };

    ghost key_of = { λ c v. hilbert_key c.n c.b v };

    ghost cell_of = { λ c k. hilbert_cell c.n c.b k };

    /// Whether the curve is in range and the vector has `n` coordinates below `2^b`. It looks at each
    /// coordinate once.
    fn has_cell(&self, v: &Vect) -> bool {
        self.grid().has_cell(v)
    }

    /// Whether the curve is in range and the number is below `2^(n*b)`. Constant time.
    fn has_key(&self, key: u64) -> bool {
        self.grid().has_key(key)
    }

    /// The key of a cell, in `b` steps.
    fn key(&self, v: &Vect) -> u64 {
        by_axes!(self.n, walked_key(self.b, v.as_slice()))
    }

    /// The cell of a key, in `b` steps.
    fn cell(&self, key: u64) -> Vect {
        by_axes!(self.n, walked_cell(self.b, key))
    }

    ghost curve_laws = { λ c. hilbert_is_curve c.n c.b };
}

impl Hilbert {
    /// The step from the cell of a key to that of the next: its axis, and whether it goes up. None
    /// comes at the last key. In `b` steps.
    pub fn step_axis(&self, key: u64) -> Option<(u8, bool)>
        requires { IsKey self.now.n self.now.b key }
        ensures { IsStep self.now.n self.now.b key result }
    {
        by_axes!(self.n, walked_step(self.b, key))
    }

    // what the curve numbers
    fn grid(&self) -> Grid
        ensures axes { result.n ≡ self.now.n }
        ensures bits { result.b ≡ self.now.b }
    {
        Grid {
            n: self.n,
            b: self.b,
        }
    }
}

// group t of a key, from the lowest
fn group_in<const N: usize>(key: u64, t: u8) -> u8
    requires axes { (0 < N) × (N ≤ 8) }
    requires place { N * t < 64 }
    ensures group { result ≡ key / 2 ^ (N * t) % 2 ^ N }
    ensures within { result < 2 ^ N }
{
    (key >> (N * t as usize) & ((1 << N) - 1)) as u8
}

// the cell of a key: the bits of each group, the highest first, go side by side into all coordinates
fn walked_cell<const N: usize>(b: u8, key: u64) -> Vect
    requires axes { (0 < N) × (N ≤ 8) }
    requires bits { (b ≤ 32) × (N * b ≤ 64) }
    requires key { key < 2 ^ (N * b) }
    ensures { result ≡ hilbert_cell N b key }
{
    let (mut entry, mut turn, mut all) = (0, 0, 0);
    for t in (0..b).rev() {
        let (bits, next_entry, next_turn) = walk_state::<N>(entry, turn, group_in::<N>(key, t));
        all = 2 * all + spread::<N>(bits);
        entry = next_entry;
        turn = next_turn;
    }
    unpacked::<N>(all, b)
}

// the key of a cell: the same walk, with each group found from the bits that it has to give
fn walked_key<const N: usize>(b: u8, coordinates: &[u32]) -> u64
    requires axes { (0 < N) × (N ≤ 8) }
    requires bits { (b ≤ 32) × (N * b ≤ 64) }
    requires length { length coordinates.now ≡ N }
    requires below { All (λ x. x < 2 ^ b) coordinates.now }
    ensures { result ≡ hilbert_key N b coordinates.now }
{
    let all = packed::<N>(coordinates);
    let (mut entry, mut turn, mut key) = (0, 0, 0);
    for t in (0..b).rev() {
        let group = group_to::<N>(entry, turn, bits_at::<N>(all, t));
        let (_, next_entry, next_turn) = walk_state::<N>(entry, turn, group);
        key = key << N | u64::from(group);
        entry = next_entry;
        turn = next_turn;
    }
    key
}

// the step from a key: that of the lowest group that isn't the last of its part
fn walked_step<const N: usize>(b: u8, key: u64) -> Option<(u8, bool)>
    requires axes { (0 < N) × (N ≤ 8) }
    requires bits { (b ≤ 32) × (N * b ≤ 64) }
    requires key { key < 2 ^ (N * b) }
    ensures { IsStep N b key result }
{
    let (mut entry, mut turn, mut found) = (0, 0, None);
    for t in (0..b).rev() {
        let group = group_in::<N>(key, t);
        let (bits, next_entry, next_turn) = walk_state::<N>(entry, turn, group);
        found = step_or::<N>(found, turn, group, bits);
        entry = next_entry;
        turn = next_turn;
    }
    found
}

// the step from a group to the next, or at the last group what was found before
fn step_or<const N: usize>(
    found: Option<(u8, bool)>,
    turn: u8,
    group: u8,
    bits: u8,
) -> Option<(u8, bool)>
    requires axes { (0 < N) × (N ≤ 8) }
    requires state { (turn < N) × (group < 2 ^ N) × (bits < 2 ^ N) }
    ensures { result ≡ (if group + 1 == 2 ^ N then found else Some (axis_of N turn group, bit_at bits (axis_of N turn group) == 0)) }
{
    if u16::from(group) + 1 == 1 << N {
        return found;
    }
    let axis = (group.trailing_ones() as u8 + turn + 1) % N as u8;
    Some((axis, bits >> axis & 1 == 0))
}
