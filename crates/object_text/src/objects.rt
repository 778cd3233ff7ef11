ghost use Rattle.std.specs.Prelude.{◌≡◌, ℕ, ◌+◌, ◌<◌, ◌≤◌, ◌++◌, IsTrue, Some, None, IfOk, MatchOption, length, slice_index};
ghost use Rattle.hex.specs.Hex.{lower_digits};
ghost use Rattle.std.specs.Int.{w32, to_be_bytes};
ghost use Rattle.metrics_builtin.specs.Space.{fits, IsValid};
ghost use Rattle.spb_defs.specs.Numbers.{number_within};
ghost use Rattle.spb_defs.specs.ObjectText.{vector_of_text, string_of_text, set_of_text, object_of};
ghost use Rattle.object_text.specs.Reads.{ReadsObject};

use crate::numbers::number;
use crate::parts::cut;
use arrayvec::ArrayVec;
use metrics_builtin::Space;
use spb_edge::{Bytes, Memory};
use std::alloc::Global;
use thiserror::Error;

/// The most bytes of an object: a string of 120 bytes, or 30 components of 4 bytes each.
pub(crate) const OBJECT_BYTES: usize = 120;

/// Why a text is not read as an object.
#[derive(Clone, Copy, Debug, PartialEq, Eq, Drop, Error)]
pub enum TextError {
    /// It isn't the text of an object of the space.
    #[error("bad object")]
    BadObject,
    /// Memory ran out.
    #[error("out of memory")]
    Memory,
}

impl From<Memory> for TextError {
    ghost use Rattle.object_text.specs.declared.objects.TextError.TheVariants as errors;

    ghost from_gives = { λ _ e. e ≡ errors.Memory };

    fn from(_: Memory) -> TextError {
        TextError::Memory
    }
}

/// Reads the text of an object of the space.
///
/// The object's bytes are as [`Space`] says. It passes over the text once, up to the first part that
/// fails, and takes memory once, for an object that is read.
///
/// # Errors
///
/// `BadObject` if the text is not that of an object of the space. `Memory` if memory runs out.
pub fn read_object(alloc: Global, space: &Space, text: &[u8]) -> Result<Bytes, TextError>
    requires { IsTrue (fits space.now) }
    ensures exact { ReadsObject result (object_of space.now text.now) }
    ensures valid { IfOk result (λ object. IsValid space.now object) }
{
    let Some(object) = object_in(space, text) else {
        return Err(TextError::BadObject);
    };
    Ok(Bytes::of(alloc, object.as_slice())?)
}

/// The bytes of the object whose text it is.
#[tactic(auto, unfolding(spb_defs::specs::ObjectText::object_of))]
fn object_in(space: &Space, text: &[u8]) -> Option<ArrayVec<u8, OBJECT_BYTES>>
    requires { IsTrue (fits space.now) }
    ensures { MatchOption result
        (object_of space.now text.now ≡ None)
        (λ object. object_of space.now text.now ≡ Some object.items) }
{
    match *space {
        Space::L1 { dim, most } => vector(dim, most, text),
        Space::LInf { dim, most } => vector(dim, most, text),
        Space::Hamming { len } => string(len, text),
        Space::Sets { universe, most } => set(universe, most, text),
    }
}

/// The bytes of the vector whose text it is.
fn vector(dim: u32, most: u32, text: &[u8]) -> Option<ArrayVec<u8, OBJECT_BYTES>>
    requires some { 1 ≤ dim }
    requires few { dim ≤ 30 }
    ensures { MatchOption result
        (vector_of_text dim most text.now ≡ None)
        (λ object. vector_of_text dim most text.now ≡ Some object.items) }
{
    let mut object = ArrayVec::new();
    let mut rest = text;
    for _ in 1..dim {
        let (word, behind) = cut(b',', rest)?;
        push_component(&mut object, component(word, most)?);
        rest = behind;
    }
    push_component(&mut object, component(rest, most)?);
    Some(object)
}

/// The bytes that the text spells in lower-case hexadecimal, if there are `len`.
fn string(len: u32, text: &[u8]) -> Option<ArrayVec<u8, OBJECT_BYTES>>
    requires short { len ≤ 120 }
    ensures { MatchOption result
        (string_of_text len text.now ≡ None)
        (λ object. string_of_text len text.now ≡ Some object.items) }
{
    if text.len() != 2 * len as usize {
        return None;
    }
    let mut object = ArrayVec::new();
    for place in 0..len as usize {
        let high = digit(text[2 * place])?;
        let low = digit(text[2 * place + 1])?;
        object.push(16 * high + low);
    }
    Some(object)
}

/// The number that the lower-case hexadecimal digit stands for.
fn digit(character: u8) -> Option<u8>
    ensures { MatchOption result
        ((d : ℕ) → d < 16 → character ≡ slice_index lower_digits d → ⊥)
        (λ value. (value < 16) × (character ≡ slice_index lower_digits value)) }
{
    match character {
        b'0'..=b'9' => Some(character - b'0'),
        b'a'..=b'f' => Some(character - b'a' + 10),
        _ => None,
    }
}

/// The bytes of the set whose text it is.
fn set(universe: u32, most: u32, text: &[u8]) -> Option<ArrayVec<u8, OBJECT_BYTES>>
    requires some { 1 ≤ universe }
    requires few { most ≤ 30 }
    ensures { MatchOption result
        (set_of_text universe most text.now ≡ None)
        (λ object. set_of_text universe most text.now ≡ Some object.items) }
{
    let mut object = ArrayVec::new();
    if text == b"-".as_slice() {
        return Some(object);
    }
    let mut least = 0;
    for word in text.split(|b| *b == b',') {
        if object.len() == 4 * most as usize {
            return None;
        }
        let element = component(word, universe - 1)?;
        if element < least {
            return None;
        }
        push_component(&mut object, element);
        least = element + 1;
    }
    Some(object)
}

/// The number that the word spells, if it is at most `most`.
fn component(word: &[u8], most: u32) -> Option<u32>
    ensures { result ≡ number_within most word.now }
{
    let n = number(word, u64::from(most))?;
    Some(n as u32)
}

/// Appends the number's four bytes.
fn push_component(object: &mut ArrayVec<u8, OBJECT_BYTES>, n: u32)
    requires { length object.old.items + 4 ≤ OBJECT_BYTES }
    ensures { object.new.items ≡ object.old.items ++ to_be_bytes w32 n }
{
    object.try_extend_from_slice(&n.to_be_bytes()).unwrap();
}
