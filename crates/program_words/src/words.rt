//! Reading the words: those that `clap` would take for flags are refused before it reads any.
ghost use Rattle.std.specs.Prelude.{◌≡◌, ◌↔◌, IfOk, IsTrue, map};
ghost use Rattle.std.specs.List.{All};
ghost use Rattle.std.specs.String.{string_bytes};
ghost use Rattle.spb_defs.specs.Words.{names_file, asked_of, file_use_of};
ghost use Rattle.program_words.specs.Ranges.{IsInRange};

use crate::command_line::command_line;
use crate::matched::asked_in;
use clap::error::ErrorKind;
use spb_defs::{Asked, FileUse};
use spb_edge::{Bytes, Memory};
use std::alloc::Global;

/// What the words after the program's name ask for, and nothing if they aren't in the grammar. Its space fits, and its
/// numbers are in the ranges that [`Asked`] gives.
///
/// It takes memory in proportion to the number of words, and passes over them a few times.
///
/// # Errors
///
/// [`Memory`] if there is no memory for reading them.
pub fn read_words(alloc: Global, words: &[String]) -> Result<Option<Asked>, Memory>
    ensures exact { IfOk result (λ asked. asked ≡ asked_of (map string_bytes words.now)) }
    ensures in_range { IfOk result IsInRange }
{
    if !are_plain(words) {
        return Ok(None);
    }
    let Ok(command) = command_line(alloc) else {
        return Err(Memory);
    };
    match command.try_get_matches_from(words) {
        Ok(matches) => Ok(asked_in(&matches)),
        Err(e) => {
            if e.kind() == ErrorKind::OutOfMemory {
                Err(Memory)
            } else {
                Ok(None)
            }
        }
    }
}

/// The file on which the words after the program's name work: a new one for `make` and `trial`, and one that is
/// there for `run` and `check`. It is none for `mem` and for words that aren't in the grammar.
///
/// It takes memory in proportion to the number of words, and for the name.
///
/// # Errors
///
/// [`Memory`] if there is no memory for this.
pub fn file_of(alloc: Global, words: &[String]) -> Result<FileUse, Memory>
    ensures exact { IfOk result (λ file. file ≡ file_use_of (map string_bytes words.now)) }
{
    let [_, file, ..] = words else {
        return Ok(FileUse::None);
    };
    match read_words(alloc, words)? {
        None | Some(Asked::Mem(_)) => Ok(FileUse::None),
        Some(Asked::Run | Asked::Check) => Ok(FileUse::Old(Bytes::of(alloc, file.as_bytes())?)),
        Some(Asked::Make { .. } | Asked::Trial { .. }) => {
            Ok(FileUse::New(Bytes::of(alloc, file.as_bytes())?))
        }
    }
}

/// Whether no word is empty or begins with `-`. `clap` would take such a word for a flag.
fn are_plain(words: &[String]) -> bool
    ensures { IsTrue result ↔ All (λ word. IsTrue (names_file (string_bytes word))) words.now }
{
    words.iter().all(|word| is_plain(word.as_bytes()))
}

/// Whether the word is not empty and doesn't begin with `-`.
fn is_plain(word: &[u8]) -> bool
    ensures { result ≡ names_file word.now }
{
    match word.first() {
        Some(first) => *first != b'-',
        None => false,
    }
}
