//! The bytes of a slot.
ghost use Rattle.std.specs.Prelude.{◌≡◌, ◌+◌, ◌-◌, ◌*◌, ◌^◌, ◌<◌, ◌≤◌, ◌∷◌, ◌++◌, length, replicate};
ghost use Rattle.redo_journal.specs.Header.{number_bytes};
ghost use Rattle.object_file.specs.declared.slots.TheConstants.{SLOT_SIZE, OBJECT_AT, OBJECT_LIMIT, COLLECTIONS};
ghost use Rattle.object_file.specs.Slots as words;
ghost use Rattle.object_file.specs.Slots.{Free, Holds, Says, SetsPlace, slot_in};

use byteorder::{BigEndian, ByteOrder};
use page_laws::{PAGE_SIZE, are_zero};

/// How many bytes a slot has.
pub const SLOT_SIZE: usize = 128;

/// How many bytes an object has at most.
pub const OBJECT_LIMIT: usize = 120;

/// How many collections there are.
pub const COLLECTIONS: u8 = 4;

/// At which byte of a slot the object begins.
pub const OBJECT_AT: usize = 8;

/// The first byte of a free slot.
pub const FREE_MARK: u8 = 255;

/// Under which collection and id an object is kept.
#[derive(Clone, Copy, Debug, PartialEq, Eq)]
pub struct SlotHead {
    /// The collection, 0 to 3.
    pub collection: u8,
    /// The id.
    pub id: u32,
}

/// What a slot's bytes read as.
#[derive(Clone, Copy, Debug, PartialEq, Eq)]
pub enum SlotContent<'a> {
    /// It holds nothing.
    Free,
    /// It holds this object.
    Filled(SlotHead, &'a [u8]),
    /// Its bytes are those of no slot.
    Broken,
}

/// What the slot at a place of a page, 0 to 3, reads as.
pub fn read_slot(page: &[u8; PAGE_SIZE], place: usize) -> SlotContent<'_>
    requires { place < 4 }
    ensures { Says result (slot_in page.now place) }
{
    content_of(slot_of(page, place))
}

/// The bytes of the slot at a place.
#[tactic(auto, unfolding(crate::specs::Slots::slot_bytes))]
fn slot_of(page: &[u8; PAGE_SIZE], place: usize) -> &[u8]
    requires { place < 4 }
    ensures bytes { result.now ≡ words.slot_bytes page.now place }
    ensures len { length result.now ≡ SLOT_SIZE }
{
    &page[SLOT_SIZE * place..SLOT_SIZE * place + SLOT_SIZE]
}

/// What a slot's bytes read as.
#[tactic(auto, unfolding(crate::specs::Slots::slot_of))]
fn content_of(bytes: &[u8]) -> SlotContent<'_>
    requires { length bytes.now ≡ SLOT_SIZE }
    ensures { Says result (words.slot_of bytes.now) }
{
    if bytes[0] == FREE_MARK {
        return SlotContent::Free;
    }
    if !is_filled(bytes) {
        return SlotContent::Broken;
    }
    let head = SlotHead {
        collection: bytes[0],
        id: id_in(bytes),
    };
    SlotContent::Filled(head, &bytes[OBJECT_AT..OBJECT_AT + bytes[1] as usize])
}

/// The id.
#[tactic(auto, unfolding(redo_journal::specs::Header::leading_number))]
fn id_in(bytes: &[u8]) -> u32
    requires { length bytes.now ≡ SLOT_SIZE }
    ensures { result ≡ words.id_in bytes.now }
{
    BigEndian::read_u32(&bytes[4..])
}

/// Whether the bytes are those of a filled slot.
fn is_filled(bytes: &[u8]) -> bool
    requires { length bytes.now ≡ SLOT_SIZE }
    ensures { result ≡ words.is_filled_slot bytes.now }
{
    let len = bytes[1] as usize;
    bytes[0] < COLLECTIONS
        && len <= OBJECT_LIMIT
        && are_zero(&bytes[2..4])
        && are_zero(&bytes[OBJECT_AT + len..])
}

/// Fills the slot at a place of a page, 0 to 3, with an object of at most 120 bytes.
pub fn fill_slot(page: &mut [u8; PAGE_SIZE], place: usize, head: SlotHead, object: &[u8])
    requires place { place < 4 }
    requires collection { head.collection < COLLECTIONS }
    requires short { length object.now ≤ OBJECT_LIMIT }
    ensures { SetsPlace place (Holds head.collection head.id object.now) page.old page.new }
{
    let at = SLOT_SIZE * place;
    lay(
        &mut page[at..at + SLOT_SIZE],
        &head_bytes(head.collection, object.len() as u8, head.id),
        object,
    );
}

/// Frees the slot at a place of a page, 0 to 3.
pub(crate) fn free_slot(page: &mut [u8; PAGE_SIZE], place: usize)
    requires { place < 4 }
    ensures { SetsPlace place Free page.old page.new }
{
    page[SLOT_SIZE * place] = FREE_MARK;
}

/// The bytes of a filled slot before its object.
#[tactic(auto, unfolding(redo_journal::specs::Header::number_bytes))]
fn head_bytes(collection: u8, len: u8, id: u32) -> [u8; OBJECT_AT]
    ensures bytes { result ≡ collection ∷ len ∷ 0 ∷ 0 ∷ number_bytes id }
    ensures fits { id < 2 ^ 32 }
{
    let mut bytes = [collection, len, 0, 0, 0, 0, 0, 0];
    BigEndian::write_u32(&mut bytes[4..], id);
    bytes
}

/// Lays bytes, an object and zeros over a slot.
fn lay(slot: &mut [u8], front: &[u8; OBJECT_AT], object: &[u8])
    requires slot { length slot.old ≡ SLOT_SIZE }
    requires short { length object.now ≤ OBJECT_LIMIT }
    ensures { slot.new ≡ front.now ++ (object.now ++ replicate (OBJECT_LIMIT - length object.now) 0) }
{
    let (head, body) = slot.split_at_mut(OBJECT_AT);
    head.copy_from_slice(front);
    let (bytes, rest) = body.split_at_mut(object.len());
    bytes.copy_from_slice(object);
    rest.fill(0);
}
