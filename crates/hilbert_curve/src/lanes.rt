//! All coordinates side by side in one number, in lanes of 64 / N bits.
ghost use Rattle.std.specs.Prelude.{◌≡◌, ℕ, ◌<◌, ◌≤◌, ◌*◌, ◌/◌, ◌%◌, ◌^◌, All, slice_index, length, map};
ghost use Rattle.std.specs.Int.{bit_at};
ghost use Rattle.std.specs.List.{range_with_len};
ghost use Rattle.hilbert_curve.specs.Curve.{lanes};

use curve_laws::Vect;

// by the number of lanes: a one in each
static ONES: [u64; 9] = [
    0,
    0x1,
    0x1_0000_0001,
    0x400_0020_0001,
    0x1_0001_0001_0001,
    0x1_0010_0100_1001,
    0x4_0100_4010_0401,
    0x40_2010_0804_0201,
    0x101_0101_0101_0101,
];

// the same in lanes of one bit less: a factor that takes bit j to lane j, and back
static FACTORS: [u64; 9] = [
    0,
    0x1,
    0x8000_0001,
    0x100_0010_0001,
    0x2000_4000_8001,
    0x1002_0040_0801,
    0x2010_0804_0201,
    0x1_0101_0101_0101,
    0x2_0408_1020_4081,
];

/// The bits of a group, each alone in its lane. Constant time.
pub(crate) fn spread<const N: usize>(bits: u8) -> u64
    requires axes { (0 < N) × (N ≤ 8) }
    requires bits { bits < 2 ^ N }
    ensures { result ≡ lanes (64 / N) N (bit_at bits) }
{
    let bits = u64::from(bits);
    let top = N - 1;
    let low = bits & ((1 << top) - 1);
    low.wrapping_mul(FACTORS[N]) & ONES[N] | bits >> top << (64 / N * top)
}

/// Bit t of each lane, as a group. Constant time.
pub(crate) fn bits_at<const N: usize>(packed: u64, t: u8) -> u8
    requires axes { (0 < N) × (N ≤ 8) }
    requires place { t < 64 / N }
    ensures bits { (v : ℕ → ℕ) → ((j : ℕ) → j < N → v j < 2 ^ (64 / N)) → packed ≡ lanes (64 / N) N v
        → result ≡ lanes 1 N (λ j. bit_at (v j) t) }
    ensures within { result < 2 ^ N }
{
    gathered::<N>(packed >> t & ONES[N])
}

// the group whose bits are alone in their lanes
fn gathered<const N: usize>(apart: u64) -> u8
    requires axes { (0 < N) × (N ≤ 8) }
    ensures bits { (x : ℕ) → x < 2 ^ N → apart ≡ lanes (64 / N) N (bit_at x) → result ≡ x }
    ensures within { result < 2 ^ N }
{
    let together = apart.wrapping_mul(FACTORS[N]) >> ((64 / N - 1) * (N - 1));
    (together & ((1 << N) - 1)) as u8
}

/// Coordinates side by side. Linear in N.
pub(crate) fn packed<const N: usize>(coordinates: &[u32]) -> u64
    requires axes { (0 < N) × (N ≤ 8) }
    requires length { length coordinates.now ≡ N }
    requires below { All (λ x. x < 2 ^ (64 / N)) coordinates.now }
    ensures { result ≡ lanes (64 / N) N (λ j. slice_index coordinates.now j) }
{
    let mut all = 0;
    for (j, x) in coordinates.iter().enumerate() {
        all += u64::from(*x) << (64 / N * j);
    }
    all
}

/// The vector of the lowest b bits of each lane. Linear in N.
pub(crate) fn unpacked<const N: usize>(packed: u64, b: u8) -> Vect
    requires axes { (0 < N) × (N ≤ 8) }
    requires bits { b ≤ 32 }
    ensures { result ≡ map (λ j. packed / 2 ^ (64 / N * j) % 2 ^ b) (range_with_len 0 N) }
{
    let low = (1u64 << b) - 1;
    let mut coordinates = [0; N];
    for (j, x) in coordinates.iter_mut().enumerate() {
        *x = (packed >> (64 / N * j) & low) as u32;
    }
    Vect::of(&coordinates)
}
