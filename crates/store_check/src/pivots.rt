//! The records of the pivots.
ghost use Rattle.std.specs.Prelude.{◌≡◌, ℕ, ◌+◌, ◌<◌, ◌≤◌, [], All, None, Some, MatchOption, length, slice_index_or};
ghost use Rattle.object_file.specs.declared.slots.TheConstants.{OBJECT_LIMIT};
ghost use Rattle.store_check.specs.Pivots.{pivot_in};

use object_file::{SlotContent, SlotHead, fill_slot, read_slot};
use page_laws::PAGE_SIZE;
use spb_edge::Bytes;

/// A pivot's record is a slot under this collection and id.
const PIVOT_HEAD: SlotHead = SlotHead {
    collection: 0,
    id: 0,
};

/// The object of the pivot whose record is at a place of a page, 0 to 3; None if the record doesn't
/// read. A record without a pivot is zero, and reads as no bytes.
pub fn read_pivot(page: &[u8; PAGE_SIZE], place: usize) -> Option<&[u8]>
    requires { place < 4 }
    ensures { MatchOption result (pivot_in page.now place ≡ None) (λ object. pivot_in page.now place ≡ Some object.now) }
{
    match read_slot(page, place) {
        SlotContent::Filled(
            SlotHead {
                collection: 0,
                id: 0,
            },
            object,
        ) => Some(object),
        _ => None,
    }
}

/// A page of pivot records, with the pivots from `first` on. Of these at most four are there, and the
/// records after the last pivot are zero.
pub fn pivot_page(pivots: &[Bytes], first: usize) -> [u8; PAGE_SIZE]
    requires first { first ≤ 4 }
    requires short { All (λ pivot. length pivot ≤ OBJECT_LIMIT) pivots.now }
    ensures { (place : ℕ) → place < 4 → pivot_in result place ≡ Some (slice_index_or pivots.now (first + place) []) }
{
    let mut page = [0; PAGE_SIZE];
    for place in 0..4 {
        fill_slot(
            &mut page,
            place,
            PIVOT_HEAD,
            object_of(pivots, first + place),
        );
    }
    page
}

/// The bytes of a pivot, or none if there is no such pivot.
fn object_of(pivots: &[Bytes], i: usize) -> &[u8]
    requires { All (λ pivot. length pivot ≤ OBJECT_LIMIT) pivots.now }
    ensures object { result.now ≡ slice_index_or pivots.now i [] }
    ensures short { length result.now ≤ OBJECT_LIMIT }
{
    match pivots.get(i) {
        Some(pivot) => pivot.as_slice(),
        None => &[],
    }
}
