//! The bits of a number set apart, and brought together again.
ghost use Rattle.std.specs.Prelude.{◌≡◌, ℕ, ◌^◌, ◌<◌, ◌≤◌, slice_index};
ghost use Rattle.z_curve.specs.ZOrder.{gathered};
ghost use Rattle.z_curve.specs.Spacing.{most_bits, spread, shift_of, mask_of};

/// How the bits of a number are set this many places apart, in five steps: pieces of 32 bits are
/// cut into pieces of 16, 8, 4, 2 and 1.
struct Spacing {
    /// How far the upper half of each piece is moved. A step that finds one piece moves nothing.
    shifts: [u32; 5],
    /// Where the bits are before the first step, and after each.
    masks: [u64; 6],
}

/// The spacings for numbers of 32, 32, 21, 16, 12, 10, 9 and 8 bits, as many as go into a key.
const SPACINGS: [Spacing; 8] = [
    // 1 coordinate
    Spacing {
        shifts: [0, 0, 0, 0, 0],
        masks: [
            0x0000_0000_ffff_ffff,
            0x0000_0000_ffff_ffff,
            0x0000_0000_ffff_ffff,
            0x0000_0000_ffff_ffff,
            0x0000_0000_ffff_ffff,
            0x0000_0000_ffff_ffff,
        ],
    },
    // 2 coordinates
    Spacing {
        shifts: [16, 8, 4, 2, 1],
        masks: [
            0x0000_0000_ffff_ffff,
            0x0000_ffff_0000_ffff,
            0x00ff_00ff_00ff_00ff,
            0x0f0f_0f0f_0f0f_0f0f,
            0x3333_3333_3333_3333,
            0x5555_5555_5555_5555,
        ],
    },
    // 3 coordinates
    Spacing {
        shifts: [32, 16, 8, 4, 2],
        masks: [
            0x0000_0000_001f_ffff,
            0x001f_0000_0000_ffff,
            0x001f_0000_ff00_00ff,
            0x100f_00f0_0f00_f00f,
            0x10c3_0c30_c30c_30c3,
            0x1249_2492_4924_9249,
        ],
    },
    // 4 coordinates
    Spacing {
        shifts: [0, 24, 12, 6, 3],
        masks: [
            0x0000_0000_0000_ffff,
            0x0000_0000_0000_ffff,
            0x0000_00ff_0000_00ff,
            0x000f_000f_000f_000f,
            0x0303_0303_0303_0303,
            0x1111_1111_1111_1111,
        ],
    },
    // 5 coordinates
    Spacing {
        shifts: [0, 32, 16, 8, 4],
        masks: [
            0x0000_0000_0000_0fff,
            0x0000_0000_0000_0fff,
            0x0000_0f00_0000_00ff,
            0x0000_0f00_00f0_000f,
            0x000c_0300_c030_0c03,
            0x0084_2108_4210_8421,
        ],
    },
    // 6 coordinates
    Spacing {
        shifts: [0, 40, 20, 10, 5],
        masks: [
            0x0000_0000_0000_03ff,
            0x0000_0000_0000_03ff,
            0x0003_0000_0000_00ff,
            0x0003_0000_0f00_000f,
            0x0003_0030_0300_3003,
            0x0041_0410_4104_1041,
        ],
    },
    // 7 coordinates
    Spacing {
        shifts: [0, 48, 24, 12, 6],
        masks: [
            0x0000_0000_0000_01ff,
            0x0000_0000_0000_01ff,
            0x0100_0000_0000_00ff,
            0x0100_0000_f000_000f,
            0x0100_0c00_3000_c003,
            0x0102_0408_1020_4081,
        ],
    },
    // 8 coordinates
    Spacing {
        shifts: [0, 0, 28, 14, 7],
        masks: [
            0x0000_0000_0000_00ff,
            0x0000_0000_0000_00ff,
            0x0000_0000_0000_00ff,
            0x0000_000f_0000_000f,
            0x0003_0003_0003_0003,
            0x0101_0101_0101_0101,
        ],
    },
];

// The spacing for this many coordinates.
#[tactic(auto, unfolding(crate::specs::Spacing::pieces))]
fn spacing_of(coordinates: usize) -> &'static Spacing
    requires low { 1 ≤ coordinates }
    requires high { coordinates ≤ 8 }
    ensures shifts { (i : ℕ) → i < 5 → slice_index result.now.shifts i ≡ shift_of coordinates i }
    ensures short { (i : ℕ) → i < 5 → slice_index result.now.shifts i < 64 }
    ensures fits { (i : ℕ) → i < 6 → slice_index result.now.masks i < 2 ^ 64 }
    ensures masks { (i : ℕ) → i < 6 → slice_index result.now.masks i ≡ mask_of coordinates i }
{
    &SPACINGS[coordinates - 1]
}

/// The bits of the number, `N` places apart. It takes at most 5 shifts and as many masks.
pub(crate) fn spread<const N: usize>(number: u32) -> u64
    requires low { 1 ≤ N }
    requires high { N ≤ 8 }
    requires bits { number < 2 ^ most_bits N }
    ensures { result ≡ spread N 32 number }
{
    let spacing = spacing_of(N);
    let mut spread = u64::from(number);
    for step in 0..5 {
        spread = (spread | spread << spacing.shifts[step]) & spacing.masks[step + 1];
    }
    spread
}

/// The number whose bits are `N` places apart in the key, from the lowest on. It takes at most 5
/// shifts and 6 masks.
pub(crate) fn gather<const N: usize>(key: u64) -> u32
    requires low { 1 ≤ N }
    requires high { N ≤ 8 }
    ensures { result ≡ gathered N (most_bits N) key }
{
    let spacing = spacing_of(N);
    let mut gathered = key & spacing.masks[5];
    for step in (0..5).rev() {
        gathered = (gathered | gathered >> spacing.shifts[step]) & spacing.masks[step];
    }
    gathered as u32
}
