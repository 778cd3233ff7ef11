//! The profile page.
ghost use Rattle.std.specs.Prelude.{◌≡◌, ◌+◌, ◌≤◌, IsTrue, IfSome, length};
ghost use Rattle.metrics_builtin.specs.Space.{fits};
ghost use Rattle.page_laws.specs.declared.pages.TheConstants.{PAGE_SIZE};
ghost use Rattle.redo_journal.specs.Header.{leading_number};
ghost use Rattle.store_check.specs.Profile as words;
ghost use Rattle.store_check.specs.Profile.{Reads};

use byteorder::{BigEndian, ByteOrder};
use metrics_builtin::Space;
use page_laws::{PAGE_SIZE, Root, are_zero};
use spb_defs::CurveKind;
use thiserror::Error;

/// The byte of the profile page at which the space's kind begins.
pub const KIND_AT: usize = 2;

/// The byte of the profile page at which the curve begins.
pub const CURVE_AT: usize = 3;

/// The byte of the profile page at which the number of pivots begins.
pub const PIVOTS_AT: usize = 4;

/// The byte of the profile page at which the number of bits begins. Two zero bytes follow.
pub const BITS_AT: usize = 5;

/// The byte of the profile page at which the space's first parameter begins.
pub const FIRST_AT: usize = 8;

/// The byte of the profile page at which the space's second parameter begins.
pub const SECOND_AT: usize = 12;

/// The byte of the profile page at which the cap begins.
pub const CAP_AT: usize = 16;

/// The byte of the profile page at which the cell width begins. Eight zero bytes follow.
pub const WIDTH_AT: usize = 20;

/// At which byte the roots begin, 16 bytes for each collection.
pub const ROOTS_AT: usize = 32;

/// The first byte after the roots. It and all others are zero.
pub const ROOTS_END: usize = 96;

/// What a store's file says of the store.
#[derive(Clone, Copy, Debug, PartialEq, Eq)]
pub struct Profile {
    /// The space.
    pub space: Space,
    /// The curve by which objects are kept in order.
    pub curve: CurveKind,
    /// How many pivots there are, 1 to 8.
    pub pivots: u8,
    /// The bits of a cell's coordinate: those of the space, at most 64 over all pivots.
    pub bits: u8,
    /// The greatest number of objects, 1 to 65536.
    pub cap: u32,
    /// The roots of the curve trees of collections 0 to 3, and then of their id trees. The height is at
    /// most 5, and 0 with page 0 for the empty tree. The two trees of a collection are both empty or
    /// neither is.
    pub roots: [Root; 8],
}

/// Why a page isn't a profile page.
#[derive(Clone, Copy, Debug, PartialEq, Eq, Drop, Error)]
pub enum ProfileFault {
    /// The format number isn't 1.
    #[error("unknown format")]
    NoFormat,
    /// A field is out of its range.
    #[error("bad profile field")]
    BadField,
}

/// The profile that a page holds. NoFormat comes exactly if the format number isn't 1, and else
/// BadField exactly if a field is out of its range. It takes no memory.
#[tactic(auto, unfolding(crate::specs::Profile::profile_in))]
pub fn read_profile(page: &[u8; PAGE_SIZE]) -> Result<Profile, ProfileFault>
    ensures { Reads page.now result }
{
    if !is_format(format_in(page)) {
        return Err(ProfileFault::NoFormat);
    }
    match fields_in(page) {
        Some(profile) => Ok(profile),
        None => Err(ProfileFault::BadField),
    }
}

/// The fields after the format number, if they are in their ranges.
#[tactic(auto, unfolding(crate::specs::Profile::fields_in))]
fn fields_in(page: &[u8; PAGE_SIZE]) -> Option<Profile>
    ensures { result ≡ words.fields_in page.now }
{
    let space = space_in(page)?;
    let curve = curve_of(page[CURVE_AT])?;
    let roots = roots_in(page)?;
    with_numbers(page, space, curve, roots)
}

/// The profile with the other numbers of the page, if they and the other bytes are in their ranges.
fn with_numbers(
    page: &[u8; PAGE_SIZE],
    space: Space,
    curve: CurveKind,
    roots: [Root; 8],
) -> Option<Profile>
    requires { IsTrue (fits space) }
    ensures { result ≡ words.with_numbers page.now space curve roots }
{
    let (pivots, bits, cap) = (page[PIVOTS_AT], page[BITS_AT], number_at(page, CAP_AT));
    if !are_in_range(&space, pivots, bits, cap) {
        return None;
    }
    if !has_width(page) {
        return None;
    }
    if !has_zeros(page) {
        return None;
    }
    Some(Profile {
        space,
        curve,
        pivots,
        bits,
        cap,
        roots,
    })
}

/// The format number.
#[tactic(auto, unfolding(crate::specs::Profile::format_in))]
fn format_in(page: &[u8; PAGE_SIZE]) -> u16
    ensures { result ≡ words.format_in page.now }
{
    BigEndian::read_u16(page)
}

/// Whether files of this format are read.
fn is_format(number: u16) -> bool
    ensures { result ≡ words.is_format number }
{
    number == 1
}

/// The number in four bytes of the page.
fn number_at(page: &[u8; PAGE_SIZE], at: usize) -> u32
    requires { at + 4 ≤ PAGE_SIZE }
    ensures { result ≡ words.number_at at page.now }
{
    number_of(&page[at..])
}

/// The number in the first four bytes.
#[tactic(auto, unfolding(redo_journal::specs::Header::leading_number))]
fn number_of(bytes: &[u8]) -> u32
    requires { 4 ≤ length bytes.now }
    ensures { result ≡ leading_number bytes.now }
{
    BigEndian::read_u32(bytes)
}

/// The space that the page gives.
#[tactic(auto, unfolding(crate::specs::Profile::space_in))]
fn space_in(page: &[u8; PAGE_SIZE]) -> Option<Space>
    ensures space { result ≡ words.space_in page.now }
    ensures fits { IfSome result (λ space. IsTrue (fits space)) }
{
    let first = number_at(page, FIRST_AT);
    let second = number_at(page, SECOND_AT);
    let space = space_of(page[KIND_AT], first, second)?;
    kept_space(space)
}

/// The space, if it is in its ranges.
fn kept_space(space: Space) -> Option<Space>
    ensures space { result ≡ words.kept_space space }
    ensures fits { IfSome result (λ space. IsTrue (fits space)) }
{
    if !space.fits() {
        return None;
    }
    Some(space)
}

/// The space of this kind with these parameters.
#[tactic(auto, unfolding(crate::specs::Profile::space_of))]
fn space_of(kind: u8, first: u32, second: u32) -> Option<Space>
    ensures { result ≡ words.space_of kind first second }
{
    match kind {
        1 => Some(Space::L1 {
            dim: first,
            most: second,
        }),
        2 => Some(Space::LInf {
            dim: first,
            most: second,
        }),
        3 if second == 0 => Some(Space::Hamming { len: first }),
        4 => Some(Space::Sets {
            universe: first,
            most: second,
        }),
        _ => None,
    }
}

/// The curve of this number.
#[tactic(auto, unfolding(crate::specs::Profile::curve_of))]
fn curve_of(number: u8) -> Option<CurveKind>
    ensures { result ≡ words.curve_of number }
{
    match number {
        1 => Some(CurveKind::Z),
        2 => Some(CurveKind::Hilbert),
        _ => None,
    }
}

/// Whether the numbers of a profile with this space are in their ranges.
#[tactic(auto, unfolding(crate::specs::Profile::are_in_range))]
fn are_in_range(space: &Space, pivots: u8, bits: u8, cap: u32) -> bool
    requires { IsTrue (fits space.now) }
    ensures { result ≡ words.are_in_range space.now pivots bits cap }
{
    1 <= pivots
        && pivots <= 8
        && bits == space.bits()
        && pivots as u32 * bits as u32 <= 64
        && 1 <= cap
        && cap <= 65_536
}

/// Whether the cell width is 1.
fn has_width(page: &[u8; PAGE_SIZE]) -> bool
    ensures { result ≡ words.is_width (words.number_at WIDTH_AT page.now) }
{
    number_at(page, WIDTH_AT) == 1
}

/// Whether the bytes without a field are zero.
#[tactic(auto, unfolding(crate::specs::Profile::has_zeros))]
fn has_zeros(page: &[u8; PAGE_SIZE]) -> bool
    ensures { result ≡ words.has_zeros page.now }
{
    has_zeros_between(page, BITS_AT + 1, FIRST_AT)
        && has_zeros_between(page, WIDTH_AT + 4, ROOTS_AT)
        && has_zeros_between(page, ROOTS_END, PAGE_SIZE)
}

/// Whether the bytes from a place on and before another are zero.
fn has_zeros_between(page: &[u8; PAGE_SIZE], from: usize, to: usize) -> bool
    requires { (from ≤ to) × (to ≤ PAGE_SIZE) }
    ensures { result ≡ words.has_zeros_between from to page.now }
{
    are_zero(&page[from..to])
}

/// The eight roots, those of the curve trees first.
#[tactic(auto, unfolding(crate::specs::Profile::roots_in))]
fn roots_in(page: &[u8; PAGE_SIZE]) -> Option<[Root; 8]>
    ensures { result ≡ words.roots_in page.now }
{
    let (curve_0, ids_0) = trees_at(page, ROOTS_AT)?;
    let (curve_1, ids_1) = trees_at(page, ROOTS_AT + 16)?;
    let (curve_2, ids_2) = trees_at(page, ROOTS_AT + 32)?;
    let (curve_3, ids_3) = trees_at(page, ROOTS_AT + 48)?;
    Some([
        curve_0, curve_1, curve_2, curve_3, ids_0, ids_1, ids_2, ids_3,
    ])
}

/// The roots of the two trees at a place of the page.
fn trees_at(page: &[u8; PAGE_SIZE], at: usize) -> Option<(Root, Root)>
    requires { at + 16 ≤ PAGE_SIZE }
    ensures { result ≡ words.trees_at at page.now }
{
    trees_in(&page[at..])
}

/// The roots of a collection's two trees.
#[tactic(auto, unfolding(crate::specs::Profile::trees_in))]
fn trees_in(bytes: &[u8]) -> Option<(Root, Root)>
    requires { 16 ≤ length bytes.now }
    ensures { result ≡ words.trees_in bytes.now }
{
    let curve = root_in(bytes)?;
    let ids = root_in(&bytes[8..])?;
    kept_pair(curve, ids)
}

/// Both roots, if they may come together.
fn kept_pair(curve: Root, ids: Root) -> Option<(Root, Root)>
    ensures { result ≡ words.kept_pair curve ids }
{
    if !are_paired(curve, ids) {
        return None;
    }
    Some((curve, ids))
}

/// Whether both trees are empty, or neither.
fn are_paired(curve: Root, ids: Root) -> bool
    ensures { result ≡ words.are_paired curve ids }
{
    if curve.height == 0 {
        return ids.height == 0;
    }
    ids.height != 0
}

/// A root.
#[tactic(auto, unfolding(crate::specs::Profile::root_in))]
fn root_in(bytes: &[u8]) -> Option<Root>
    requires { 8 ≤ length bytes.now }
    ensures { result ≡ words.root_in bytes.now }
{
    let root = Root {
        page: number_of(bytes),
        height: bytes[4],
    };
    kept_root(root, &bytes[5..8])
}

/// A root, if a tree may have it and the bytes after it are zero.
fn kept_root(root: Root, zeros: &[u8]) -> Option<Root>
    ensures { result ≡ words.kept_root root zeros.now }
{
    if !is_root(root) {
        return None;
    }
    if !are_zero(zeros) {
        return None;
    }
    Some(root)
}

/// Whether a tree may have this root.
fn is_root(root: Root) -> bool
    ensures { result ≡ words.is_root root }
{
    if root.height == 0 {
        return root.page == 0;
    }
    root.height <= 5
}
