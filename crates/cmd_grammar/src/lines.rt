ghost use Rattle.std.specs.Prelude.{◌≡◌, ◌<◌, ◌≤◌, ◌==◌, [], ◌∷◌, IsTrue, IfOk};
ghost use Rattle.std.specs.List.{slice_split};
ghost use Rattle.metrics_builtin.specs.declared.Space.{Space};
ghost use Rattle.metrics_builtin.specs.Space.{fits, IsValid};
ghost use Rattle.spb_defs.specs.Numbers.{number_within};
ghost use Rattle.std.specs.Option.{ok_or};
ghost use Rattle.spb_defs.specs.CommandText.{IsWellFormed};
ghost use Rattle.spb_defs.specs.Grammar.{collection_in, id_in, radius_in, ranks_in, object_in, sample_in, add_in, drop_in, get_in, count_in, range_in, near_in, join_in, command_in, command_of};
ghost use Rattle.cmd_grammar.specs.LineWords.{AreWords};
ghost use Rattle.cmd_grammar.specs.ReadsCommand.{ReadsCommand};

use metrics_builtin::Space;
use object_text::{TextError, cut, number, read_object};
use spb_defs::{Command, NEAR_LIMIT, What};
use spb_edge::Bytes;
use std::alloc::Global;
use thiserror::Error;

/// Why a line is not read as a command.
#[derive(Clone, Copy, Debug, PartialEq, Eq, Drop, Error)]
pub enum LineError {
    /// It is no command, and this fails first in it.
    #[error("bad line")]
    Bad(What),
    /// Memory ran out.
    #[error("out of memory")]
    Memory,
}

/// Reads a line, without its LF, as a command on objects of the space.
///
/// It passes over the line a few times at most, and takes memory once, for the object of a command
/// whose other words are read.
///
/// # Errors
///
/// `Bad` with what fails first, from the left, if the line is no command. `Memory` if memory runs
/// out.
pub fn read_command(alloc: Global, space: &Space, line: &[u8]) -> Result<Command, LineError>
    requires { IsTrue (fits space.now) }
    ensures exact { ReadsCommand result (command_of space.now line.now) }
    ensures proper { IfOk result (λ command. IsWellFormed space.now command) }
{
    match words_of(line) {
        Words::Two { name, first } => command_of_two(alloc, space, name, first),
        Words::Three {
            name,
            first,
            second,
        } => command_of_three(name, first, second),
        Words::Four {
            name,
            first,
            second,
            third,
        } => command_of_four(alloc, space, name, first, second, third),
        Words::Others => Err(LineError::Bad(What::Command)),
    }
}

/// The command that two words are.
fn command_of_two(
    alloc: Global,
    space: &Space,
    name: &[u8],
    first: &[u8],
) -> Result<Command, LineError>
    requires { IsTrue (fits space.now) }
    ensures exact { ReadsCommand result (command_in space.now (name.now ∷ first.now ∷ [])) }
    ensures proper { IfOk result (λ command. IsWellFormed space.now command) }
{
    if name == b"sample".as_slice() {
        return sample(alloc, space, first);
    }
    if name == b"count".as_slice() {
        return count(first);
    }
    Err(LineError::Bad(What::Command))
}

/// The command that three words are.
fn command_of_three(name: &[u8], first: &[u8], second: &[u8]) -> Result<Command, LineError>
    ensures exact { (space : Space) → ReadsCommand result (command_in space (name.now ∷ first.now ∷ second.now ∷ [])) }
    ensures proper { (space : Space) → IfOk result (λ command. IsWellFormed space command) }
{
    if name == b"drop".as_slice() {
        return discard(first, second);
    }
    if name == b"get".as_slice() {
        return get(first, second);
    }
    Err(LineError::Bad(What::Command))
}

/// The command that four words are.
fn command_of_four(
    alloc: Global,
    space: &Space,
    name: &[u8],
    first: &[u8],
    second: &[u8],
    third: &[u8],
) -> Result<Command, LineError>
    requires { IsTrue (fits space.now) }
    ensures exact { ReadsCommand result (command_in space.now (name.now ∷ first.now ∷ second.now ∷ third.now ∷ [])) }
    ensures proper { IfOk result (λ command. IsWellFormed space.now command) }
{
    if name == b"add".as_slice() {
        return add(alloc, space, first, second, third);
    }
    if name == b"range".as_slice() {
        return range(alloc, space, first, second, third);
    }
    if name == b"near".as_slice() {
        return near(alloc, space, first, second, third);
    }
    if name == b"join".as_slice() {
        return join(first, second, third);
    }
    Err(LineError::Bad(What::Command))
}

/// The sample that the word asks for.
#[tactic(auto, unfolding(spb_defs::specs::Grammar::sample_in))]
fn sample(alloc: Global, space: &Space, object: &[u8]) -> Result<Command, LineError>
    requires { IsTrue (fits space.now) }
    ensures exact { ReadsCommand result (sample_in space.now object.now) }
    ensures proper { IfOk result (λ command. IsWellFormed space.now command) }
{
    let object = object_or(alloc, space, object)?;
    Ok(Command::Sample { object })
}

/// The removal that the words ask for.
#[tactic(auto, unfolding(spb_defs::specs::Grammar::drop_in))]
fn discard(collection: &[u8], id: &[u8]) -> Result<Command, LineError>
    ensures exact { ReadsCommand result (drop_in collection.now id.now) }
    ensures proper { (space : Space) → IfOk result (λ command. IsWellFormed space command) }
{
    let c = collection_or(collection)?;
    let id = id_or(id)?;
    Ok(Command::Discard { c, id })
}

/// The look-up that the words ask for.
#[tactic(auto, unfolding(spb_defs::specs::Grammar::get_in))]
fn get(collection: &[u8], id: &[u8]) -> Result<Command, LineError>
    ensures exact { ReadsCommand result (get_in collection.now id.now) }
    ensures proper { (space : Space) → IfOk result (λ command. IsWellFormed space command) }
{
    let c = collection_or(collection)?;
    let id = id_or(id)?;
    Ok(Command::Get { c, id })
}

/// The count that the word asks for.
#[tactic(auto, unfolding(spb_defs::specs::Grammar::count_in))]
fn count(collection: &[u8]) -> Result<Command, LineError>
    ensures exact { ReadsCommand result (count_in collection.now) }
    ensures proper { (space : Space) → IfOk result (λ command. IsWellFormed space command) }
{
    let c = collection_or(collection)?;
    Ok(Command::Count { c })
}

/// The addition that the words ask for.
#[tactic(auto, unfolding(spb_defs::specs::Grammar::add_in))]
fn add(
    alloc: Global,
    space: &Space,
    collection: &[u8],
    id: &[u8],
    object: &[u8],
) -> Result<Command, LineError>
    requires { IsTrue (fits space.now) }
    ensures exact { ReadsCommand result (add_in space.now collection.now id.now object.now) }
    ensures proper { IfOk result (λ command. IsWellFormed space.now command) }
{
    let c = collection_or(collection)?;
    let id = id_or(id)?;
    let object = object_or(alloc, space, object)?;
    Ok(Command::Add { c, id, object })
}

/// The range that the words ask for.
#[tactic(auto, unfolding(spb_defs::specs::Grammar::range_in))]
fn range(
    alloc: Global,
    space: &Space,
    collection: &[u8],
    radius: &[u8],
    query: &[u8],
) -> Result<Command, LineError>
    requires { IsTrue (fits space.now) }
    ensures exact { ReadsCommand result (range_in space.now collection.now radius.now query.now) }
    ensures proper { IfOk result (λ command. IsWellFormed space.now command) }
{
    let c = collection_or(collection)?;
    let r = radius_or(radius)?;
    let object = object_or(alloc, space, query)?;
    Ok(Command::Range { c, r, object })
}

/// The nearest that the words ask for.
#[tactic(auto, unfolding(spb_defs::specs::Grammar::near_in))]
fn near(
    alloc: Global,
    space: &Space,
    collection: &[u8],
    many: &[u8],
    query: &[u8],
) -> Result<Command, LineError>
    requires { IsTrue (fits space.now) }
    ensures exact { ReadsCommand result (near_in space.now collection.now many.now query.now) }
    ensures proper { IfOk result (λ command. IsWellFormed space.now command) }
{
    let c = collection_or(collection)?;
    let k = ranks_or(many)?;
    let object = object_or(alloc, space, query)?;
    Ok(Command::Near { c, k, object })
}

/// The join that the words ask for.
#[tactic(auto, unfolding(spb_defs::specs::Grammar::join_in))]
fn join(left: &[u8], right: &[u8], radius: &[u8]) -> Result<Command, LineError>
    ensures exact { ReadsCommand result (join_in left.now right.now radius.now) }
    ensures proper { (space : Space) → IfOk result (λ command. IsWellFormed space command) }
{
    let c = collection_or(left)?;
    let d = collection_or(right)?;
    let r = radius_or(radius)?;
    Ok(Command::Join { c, d, r })
}

/// The collection that the word names, or what failed.
fn collection_or(word: &[u8]) -> Result<u8, LineError>
    ensures exact { ReadsCommand result (collection_in word.now) }
    ensures small { IfOk result (λ c. c < 4) }
{
    let c = number_or(What::Collection, word, 3)?;
    Ok(c as u8)
}

/// The id that the word spells, or what failed.
fn id_or(word: &[u8]) -> Result<u32, LineError>
    ensures { ReadsCommand result (id_in word.now) }
{
    let id = number_or(What::Id, word, u64::from(u32::MAX))?;
    Ok(id as u32)
}

/// The radius that the word spells, or what failed.
fn radius_or(word: &[u8]) -> Result<u32, LineError>
    ensures { ReadsCommand result (radius_in word.now) }
{
    let r = number_or(What::Number, word, u64::from(u32::MAX))?;
    Ok(r as u32)
}

/// The number of ranks that the word spells, or what failed.
fn ranks_or(word: &[u8]) -> Result<u32, LineError>
    ensures exact { ReadsCommand result (ranks_in word.now) }
    ensures some { IfOk result (λ k. 1 ≤ k) }
    ensures few { IfOk result (λ k. k ≤ 65536) }
{
    let k = number_or(What::Number, word, u64::from(NEAR_LIMIT))?;
    if k == 0 {
        return Err(LineError::Bad(What::Number));
    }
    Ok(k as u32)
}

/// The number that the word spells, if it is at most `most`, or what failed.
fn number_or(failed: What, word: &[u8], most: u64) -> Result<u64, LineError>
    ensures exact { ReadsCommand result (ok_or (number_within most word.now) failed) }
    ensures small { IfOk result (λ n. n ≤ most) }
{
    match number(word, most) {
        Some(n) => Ok(n),
        None => Err(LineError::Bad(failed)),
    }
}

/// The object whose text the word is, or what failed.
fn object_or(alloc: Global, space: &Space, word: &[u8]) -> Result<Bytes, LineError>
    requires { IsTrue (fits space.now) }
    ensures exact { ReadsCommand result (object_in space.now word.now) }
    ensures valid { IfOk result (λ object. IsValid space.now object) }
{
    match read_object(alloc, space, word) {
        Ok(object) => Ok(object),
        Err(TextError::BadObject) => Err(LineError::Bad(What::Object)),
        Err(TextError::Memory) => Err(LineError::Memory),
    }
}

/// The words of a line, if there are two, three or four.
#[derive(Clone, Copy)]
enum Words<'a> {
    Two {
        name: &'a [u8],
        first: &'a [u8],
    },
    Three {
        name: &'a [u8],
        first: &'a [u8],
        second: &'a [u8],
    },
    Four {
        name: &'a [u8],
        first: &'a [u8],
        second: &'a [u8],
        third: &'a [u8],
    },
    /// There are fewer or more.
    Others,
}

/// The words of the line. It passes over the line once, up to the fourth space.
fn words_of(line: &[u8]) -> Words<'_>
    ensures { AreWords result (slice_split (λ b. b == 32) line.now) }
{
    let Some((name, rest)) = cut(b' ', line) else {
        return Words::Others;
    };
    let Some((first, rest)) = cut(b' ', rest) else {
        return Words::Two { name, first: rest };
    };
    let Some((second, rest)) = cut(b' ', rest) else {
        return Words::Three {
            name,
            first,
            second: rest,
        };
    };
    match cut(b' ', rest) {
        Some(_) => Words::Others,
        None => Words::Four {
            name,
            first,
            second,
            third: rest,
        },
    }
}
