ghost use Rattle.std.specs.Prelude.{◌≡◌, ◌%◌, ◌≤◌, ◌++◌, IsTrue, OnOk, length};
ghost use Rattle.std.specs.Fmt.{decimal};
ghost use Rattle.hex.specs.Hex.{encode_lower};
ghost use Rattle.metrics_builtin.specs.Space.{fits, IsValid};
ghost use Rattle.metrics_builtin.specs.Vectors.{components};
ghost use Rattle.spb_defs.specs.ObjectText.{numbers_text, set_text, text_of};

use crate::objects::OBJECT_BYTES;
use itoa::Buffer;
use metrics_builtin::{Space, component};
use spb_edge::{Bytes, Memory};

/// Appends the one text of an object of the space to `text`.
///
/// It passes over the object once, and takes memory for the text alone.
///
/// # Errors
///
/// `Memory` if memory runs out. Then `text` may end in the middle of the object's.
pub fn write_object(space: &Space, object: &[u8], text: &mut Bytes) -> Result<(), Memory>
    requires fits { IsTrue (fits space.now) }
    requires valid { IsValid space.now object.now }
    ensures { OnOk result (text.new ≡ text.old ++ text_of space.now object.now) }
{
    match *space {
        Space::L1 { .. } => write_numbers(object, text),
        Space::LInf { .. } => write_numbers(object, text),
        Space::Hamming { .. } => write_digits(object, text),
        Space::Sets { .. } => write_set(object, text),
    }
}

/// Appends the elements of the object to `text` with commas between them, or `-` if there are none.
fn write_set(object: &[u8], text: &mut Bytes) -> Result<(), Memory>
    requires whole { length object.now % 4 ≡ 0 }
    ensures { OnOk result (text.new ≡ text.old ++ set_text (components object.now)) }
{
    if object.is_empty() {
        return text.append(b"-");
    }
    write_numbers(object, text)
}

/// Appends the numbers of the object, one at least, to `text` with commas between them.
fn write_numbers(object: &[u8], text: &mut Bytes) -> Result<(), Memory>
    requires some { 4 ≤ length object.now }
    ensures { OnOk result (text.new ≡ text.old ++ numbers_text (components object.now)) }
{
    write_number(b"", component(object, 0), text)?;
    for place in 1..object.len() / 4 {
        write_number(b",", component(object, place), text)?;
    }
    Ok(())
}

/// Appends what comes before a number, and the number in decimal, to `text`.
fn write_number(before: &[u8], n: u32, text: &mut Bytes) -> Result<(), Memory>
    ensures { OnOk result (text.new ≡ text.old ++ before.now ++ decimal n) }
{
    let mut buffer = Buffer::new();
    text.append(before)?;
    text.append(buffer.format(n).as_bytes())
}

/// Appends two lower-case hexadecimal digits for each byte of the object to `text`.
fn write_digits(object: &[u8], text: &mut Bytes) -> Result<(), Memory>
    requires short { length object.now ≤ 120 }
    ensures { OnOk result (text.new ≡ text.old ++ encode_lower object.now) }
{
    let mut room = [0; 2 * OBJECT_BYTES];
    let digits = &mut room[..2 * object.len()];
    let Ok(()) = hex::encode_to_slice(object, digits) else {
        unreachable!()
    };
    text.append(digits)
}
