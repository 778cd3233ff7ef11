//! The profile page that is written when a file is made.
ghost use Rattle.std.specs.Prelude.{◌≡◌, ◌+◌, ◌-◌, ◌*◌, ◌^◌, ◌<◌, ◌∷◌, ◌++◌, [], List, ℕ, IsTrue, drop, length, replicate, slice_index_or, Some};
ghost use Rattle.std.specs.List.{flat_map};
ghost use Rattle.page_laws.specs.declared.pages.TheConstants.{PAGE_SIZE};
ghost use Rattle.redo_journal.specs.Header.{number_bytes};
ghost use Rattle.store_check.specs.declared.profile.TheConstants.{ROOTS_END};
ghost use Rattle.store_check.specs.Profile.{IsInRange, AreRoots, no_root, is_root, are_paired, root_in, trees_in, space_of, curve_of, profile_in};

use crate::profile::{FIRST_AT, Profile, ROOTS_AT, ROOTS_END, WIDTH_AT};
use byteorder::{BigEndian, ByteOrder};
use metrics_builtin::Space;
use page_laws::{PAGE_SIZE, Root};
use spb_defs::CurveKind;

/// How many bytes a root has.
const ROOT_SIZE: usize = 8;

/// How many bytes the roots of a collection's two trees have.
const TREES_SIZE: usize = 2 * ROOT_SIZE;

/// How many bytes all roots have.
const ROOTS_SIZE: usize = ROOTS_END - ROOTS_AT;

/// How many bytes the numbers of four bytes have: the parameters of the space, the cap and the cell width.
const NUMBERS_SIZE: usize = WIDTH_AT + 4 - FIRST_AT;

/// The format that is written.
const FORMAT: u8 = 1;

/// The cell width that is written.
const WIDTH: u32 = 1;

/// The page that reads as this profile, whose numbers and roots are in their ranges. It takes no memory.
pub fn write_profile(profile: &Profile) -> [u8; PAGE_SIZE]
    requires { IsInRange profile.now }
    ensures { profile_in result ≡ Some profile.now }
{
    let mut page = [0; PAGE_SIZE];
    let space = numbers_of(&profile.space);
    let front = [
        0,
        FORMAT,
        space.kind,
        number_of_curve(profile.curve),
        profile.pivots,
        profile.bits,
        0,
        0,
    ];
    lay(
        &mut page,
        &front,
        &numbers_bytes(space.first, space.second, profile.cap),
        &roots_bytes(&profile.roots),
    );
    page
}

/// A space as numbers.
#[derive(Clone, Copy)]
struct SpaceNumbers {
    /// The kind.
    kind: u8,
    /// The first parameter.
    first: u32,
    /// The second parameter, or 0.
    second: u32,
}

/// The numbers that read as this space.
#[tactic(auto, unfolding(crate::specs::Profile::space_of))]
fn numbers_of(space: &Space) -> SpaceNumbers
    ensures { space_of result.kind result.first result.second ≡ Some space.now }
{
    match *space {
        Space::L1 { dim, most } => SpaceNumbers {
            kind: 1,
            first: dim,
            second: most,
        },
        Space::LInf { dim, most } => SpaceNumbers {
            kind: 2,
            first: dim,
            second: most,
        },
        Space::Hamming { len } => SpaceNumbers {
            kind: 3,
            first: len,
            second: 0,
        },
        Space::Sets { universe, most } => SpaceNumbers {
            kind: 4,
            first: universe,
            second: most,
        },
    }
}

/// The number that reads as this curve.
#[tactic(auto, unfolding(crate::specs::Profile::curve_of))]
fn number_of_curve(curve: CurveKind) -> u8
    ensures { curve_of result ≡ Some curve }
{
    match curve {
        CurveKind::Z => 1,
        CurveKind::Hilbert => 2,
    }
}

/// The bytes of the numbers of four bytes.
#[tactic(auto, unfolding(redo_journal::specs::Header::number_bytes))]
fn numbers_bytes(first: u32, second: u32, cap: u32) -> [u8; NUMBERS_SIZE]
    ensures bytes { result ≡ flat_map number_bytes (first ∷ second ∷ cap ∷ 1 ∷ []) }
    ensures fits { (first < 2 ^ 32) × (second < 2 ^ 32) × (cap < 2 ^ 32) }
{
    let mut bytes = [0; NUMBERS_SIZE];
    BigEndian::write_u32_into(&[first, second, cap, WIDTH], &mut bytes);
    bytes
}

/// The bytes of the roots, 16 for each collection.
fn roots_bytes(roots: &[Root; 8]) -> [u8; ROOTS_SIZE]
    requires { AreRoots roots.now }
    ensures { (c : ℕ) (rest : List ℕ) → c < 4
        → trees_in (drop (16 * c) (result ++ rest)) ≡ Some (slice_index_or roots.now c no_root, slice_index_or roots.now (4 + c) no_root) }
{
    let mut bytes = [0; ROOTS_SIZE];
    for c in 0..4 {
        let at = TREES_SIZE * c;
        bytes[at..at + TREES_SIZE].copy_from_slice(&trees_bytes(roots[c], roots[4 + c]));
    }
    bytes
}

/// The bytes of the roots of a collection's two trees.
fn trees_bytes(curve: Root, ids: Root) -> [u8; TREES_SIZE]
    requires roots { IsTrue (is_root curve) × IsTrue (is_root ids) }
    requires paired { IsTrue (are_paired curve ids) }
    ensures { (rest : List ℕ) → trees_in (result ++ rest) ≡ Some (curve, ids) }
{
    let mut bytes = [0; TREES_SIZE];
    let (front, back) = bytes.split_at_mut(ROOT_SIZE);
    front.copy_from_slice(&root_bytes(curve));
    back.copy_from_slice(&root_bytes(ids));
    bytes
}

/// The bytes of a root.
#[tactic(auto, unfolding(redo_journal::specs::Header::number_bytes))]
fn root_bytes(root: Root) -> [u8; ROOT_SIZE]
    ensures bytes { result ≡ number_bytes root.page ++ (root.height ∷ 0 ∷ 0 ∷ 0 ∷ []) }
    ensures fits { root.page < 2 ^ 32 }
{
    let mut bytes = [0, 0, 0, 0, root.height, 0, 0, 0];
    BigEndian::write_u32(&mut bytes, root.page);
    bytes
}

/// Lays the fields over a page, with zeros between the numbers and the roots, and behind these.
fn lay(
    page: &mut [u8],
    front: &[u8; FIRST_AT],
    numbers: &[u8; NUMBERS_SIZE],
    roots: &[u8; ROOTS_SIZE],
)
    requires { length page.old ≡ PAGE_SIZE }
    ensures { page.new ≡ front.now ++ (numbers.now ++ (replicate 8 0 ++ (roots.now ++ replicate (PAGE_SIZE - ROOTS_END) 0))) }
{
    let (fields, rest) = page.split_at_mut(ROOTS_AT);
    lay_fields(fields, front, numbers);
    let (trees, zeros) = rest.split_at_mut(ROOTS_SIZE);
    trees.copy_from_slice(roots);
    zeros.fill(0);
}

/// Lays the fields before the roots, with zeros behind the numbers.
fn lay_fields(fields: &mut [u8], front: &[u8; FIRST_AT], numbers: &[u8; NUMBERS_SIZE])
    requires { length fields.old ≡ 32 }
    ensures { fields.new ≡ front.now ++ (numbers.now ++ replicate 8 0) }
{
    let (start, rest) = fields.split_at_mut(FIRST_AT);
    start.copy_from_slice(front);
    let (middle, zeros) = rest.split_at_mut(NUMBERS_SIZE);
    middle.copy_from_slice(numbers);
    zeros.fill(0);
}
