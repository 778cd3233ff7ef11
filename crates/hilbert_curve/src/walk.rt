//! One step of the curve's walk, and the way back.
ghost use Rattle.std.specs.Prelude.{◌≡◌, ◌<◌, ◌≤◌, ◌^◌};
ghost use Rattle.hilbert_curve.specs.Tables.{ungray};
ghost use Rattle.hilbert_curve.specs.Curve.{rotated, cell_bits, next_entry, next_direction, group_of};
ghost use Rattle.hilbert_curve.specs.RowLaws.{IsRow};

use crate::rows::row_of;

/// One step of the walk down the groups of a key, over `N` axes, 1 to 8.
///
/// The state is the corner at which the curve enters the present part (`entry`, `N` bits, that of
/// axis j at bit j) and the axis along which it runs through it (`turn`, below `N`). `group` is the
/// next group of key bits, `N` of them. The answer is the next bit of each coordinate, that of axis
/// j at bit j, and the next state. Constant time.
pub fn walk_state<const N: usize>(entry: u8, turn: u8, group: u8) -> (u8, u8, u8)
    requires axes { (0 < N) × (N ≤ 8) }
    requires state { (entry < 2 ^ N) × (turn < N) }
    requires group { group < 2 ^ N }
    ensures bits { result.0 ≡ cell_bits N entry turn group }
    ensures next_entry { result.1 ≡ next_entry N entry turn group }
    ensures next_turn { result.2 ≡ next_direction N turn group }
    ensures within { (result.0 < 2 ^ N) × (result.1 < 2 ^ N) × (result.2 < N) }
    ensures row { IsRow N group }
{
    let row = row_of::<N>(group);
    let places = turn + 1;
    (
        turned_left::<N>(row.gray, places) ^ entry,
        entry ^ turned_left::<N>(row.entry, places),
        (turn + row.direction + 1) % N as u8,
    )
}

/// The group that leads from a state to these bits of a cell: the way back. Constant time.
pub(crate) fn group_to<const N: usize>(entry: u8, turn: u8, bits: u8) -> u8
    requires axes { (0 < N) × (N ≤ 8) }
    requires state { (entry < 2 ^ N) × (turn < N) }
    requires bits { bits < 2 ^ N }
    ensures group { result ≡ group_of N entry turn bits }
    ensures within { result < 2 ^ N }
{
    from_gray::<N>(turned_left::<N>(bits ^ entry, N as u8 - 1 - turn))
}

// the N bits of x turned left by some places
fn turned_left<const N: usize>(x: u8, places: u8) -> u8
    requires axes { (0 < N) × (N ≤ 8) }
    requires places { places ≤ N }
    requires bits { x < 2 ^ N }
    ensures turned { result ≡ rotated N x places }
    ensures within { result < 2 ^ N }
{
    let x = u16::from(x);
    let twice = x << places | x >> (N as u8 - places);
    (twice & ((1 << N) - 1)) as u8
}

// the number whose Gray code this is
fn from_gray<const N: usize>(code: u8) -> u8
    requires axes { (0 < N) × (N ≤ 8) }
    requires code { code < 2 ^ N }
    ensures number { result ≡ ungray N code }
    ensures within { result < 2 ^ N }
{
    let pairs = code ^ code >> 1;
    let fours = pairs ^ pairs >> 2;
    fours ^ fours >> 4
}
