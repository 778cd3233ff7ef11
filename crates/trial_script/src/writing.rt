//! The texts of a trial's commands, and numbers in text.
ghost use Rattle.std.specs.Prelude.{◌≡◌, ◌^◌, ◌<◌, ◌∷◌, ◌++◌, OnOk};
ghost use Rattle.std.specs.Fmt.{decimal};
ghost use Rattle.metrics_builtin.specs.Space.{IsValid};
ghost use Rattle.spb_defs.specs.CommandText.{command_text};
ghost use Rattle.spb_defs.specs.ObjectText.{text_of};
ghost use Rattle.trial_script.specs.Script.{trial_space};
ghost use Rattle.trial_script.specs.Lines.{command_at};

use crate::TRIAL_SPACE;
use crate::lines::QUERIES;
use itoa::Buffer;
use object_text::write_object;
use spb_edge::{Bytes, Memory};

/// Appends the command at a place of the trial that adds `count` objects, with its object, to `text`.
pub(crate) fn write_command(
    count: u64,
    place: u64,
    object: &[u8],
    text: &mut Bytes,
) -> Result<(), Memory>
    requires few { count < 2 ^ 32 }
    requires object { IsValid trial_space object.now }
    ensures { OnOk result (text.new ≡ text.old ++ command_text trial_space (command_at count place object.now)) }
{
    if place < count {
        return write_words(b"add ", place % 2, place / 2, object, text);
    }
    if place < count + QUERIES {
        return write_words(b"range ", 1, 400, object, text);
    }
    if place < count + 2 * QUERIES {
        return write_words(b"near ", 0, 5, object, text);
    }
    text.append(b"join 0 1 60")
}

/// Appends a command's name, a collection, a number and an object to `text`, with spaces between them.
fn write_words(
    name: &[u8],
    collection: u64,
    number: u64,
    object: &[u8],
    text: &mut Bytes,
) -> Result<(), Memory>
    requires { IsValid trial_space object.now }
    ensures { OnOk result (text.new ≡ text.old ++ name.now ++ decimal collection ++ 32 ∷ decimal number ++ 32 ∷ text_of trial_space object.now) }
{
    write_number(name, collection, text)?;
    write_number(b" ", number, text)?;
    text.append(b" ")?;
    write_object(&TRIAL_SPACE, object, text)
}

/// Appends what comes before a number, and the number in decimal, to `text`.
pub(crate) fn write_number(before: &[u8], n: u64, text: &mut Bytes) -> Result<(), Memory>
    ensures { OnOk result (text.new ≡ text.old ++ before.now ++ decimal n) }
{
    let mut buffer = Buffer::new();
    text.append(before)?;
    text.append(buffer.format(n).as_bytes())
}
