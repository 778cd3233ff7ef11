//! How far an entry reaches.
ghost use Rattle.std.specs.Prelude.{◌≡◌, ◌<◌, ◌≤◌};
ghost use Rattle.curve_laws.specs.Grid.{IsCell};
ghost use Rattle.join_window.specs.Corners as words;

use curve_laws::{Curve, Vect};
use z_curve::ZCurve;

/// The upper corner of all cells that meet a cell of the curve within the radius: each coordinate is that of the cell
/// and the radius, the sum taken in 64 bits, or the curve's greatest coordinate if that is less. It takes no memory.
fn upper_corner(curve: &ZCurve, cell: &Vect, r: u32) -> Vect
    requires { IsCell curve.now.n curve.now.b cell.now }
    ensures { result ≡ words.upper_corner curve.now.b r cell.now }
{
    let mut at = [0; 8];
    let mut known = 0;
    for coordinate in cell.as_slice() {
        at[known] = raised(*coordinate, curve.b, r);
        known += 1;
    }
    Vect::of(&at[..known])
}

/// The key of the upper corner: no cell that meets this one within the radius has a greater key. It takes no memory.
pub fn reach(curve: &ZCurve, cell: &Vect, r: u32) -> u64
    requires { IsCell curve.now.n curve.now.b cell.now }
    ensures { result ≡ words.reach curve.now.b r cell.now }
{
    curve.key(&upper_corner(curve, cell, r))
}

/// The coordinate and the radius, or the greatest coordinate of so many bits.
fn raised(coordinate: u32, bits: u8, r: u32) -> u32
    requires some { 0 < bits }
    requires few { bits ≤ 32 }
    ensures { result ≡ words.raised bits r coordinate }
{
    let most = u32::MAX >> (32 - bits);
    most.min(coordinate.saturating_add(r))
}
