//! Samples, line by line.
ghost use Rattle.std.specs.Prelude.{◌≡◌, ◌↔◌, ◌≤◌, ◌∷◌, [], ◌++◌, ℕ, List, Some, false, length, All, IsTrue, IfOk, OnOk};
ghost use Rattle.spb_edge.specs.Reader.{unread, rest, taken, faults, has_ended};
ghost use Rattle.spb_edge.specs.declared.reader.Line.{Line};
ghost use Rattle.metrics_builtin.specs.Space.{fits, IsValid};
ghost use Rattle.spb_defs.specs.declared.TheConstants.{SAMPLE_LIMIT};
ghost use Rattle.sample_lines.specs.SampleLines.{sample_of, first_kept};
ghost use Rattle.sample_lines.specs.Answers.{ReadsSample, EndsWith, AnswersScript, TakesFront, HasSampleCause, AreKept, Completes, stopped_by};

use cmd_grammar::{Command, LineError, read_command};
use metrics_builtin::Space;
use spb_defs::{LINE_LIMIT, SAMPLE_LIMIT};
use spb_edge::{Bytes, EdgeError, Line, LineReader, Memory, Source};
use std::alloc::Global;
use thiserror::Error;

/// Why an input gives no samples.
#[derive(Clone, Copy, Debug, PartialEq, Eq, Drop, Error)]
pub enum SampleError {
    /// The source failed, and counted it.
    #[error("read fault")]
    ReadFault,
    /// The source gave more than [`INPUT_LIMIT`](spb_edge::INPUT_LIMIT) bytes.
    #[error("input limit")]
    InputLimit,
    /// The input has no line.
    #[error("no sample")]
    NoSample,
    /// A line, counted from 1, is no sample, and those before it are.
    #[error("bad sample line {line}")]
    BadSample { line: u64 },
    /// Memory ran out.
    #[error("out of memory")]
    Memory,
}

impl From<Memory> for SampleError {
    ghost use Rattle.std.specs.Prelude.{◌≡◌};
    ghost use Rattle.sample_lines.specs.declared.samples.SampleError.TheVariants as errors;

    ghost from_gives = { λ _ e. e ≡ errors.Memory };

    fn from(_: Memory) -> SampleError {
        SampleError::Memory
    }
}

/// The samples that the lines of the input give, to its end: the first [`SAMPLE_LIMIT`] are kept, in their order.
///
/// Each line must be a `sample` command on an object of the space. Lines past the last sample that is kept are read and
/// tested too. It passes over each line a few times, and keeps memory for the samples alone.
///
/// # Errors
///
/// The input is read line by line, and what comes first is answered. `ReadFault` if the source fails. `InputLimit` if
/// it gives more than [`INPUT_LIMIT`](spb_edge::INPUT_LIMIT) bytes, and each line that ends within these is a sample.
/// `BadSample` if a line is no sample: one that is too long, that is another command or that is none. `NoSample` if
/// there is no line. `Memory` if memory runs out.
pub fn read_samples<S: Source>(
    alloc: Global,
    space: &Space,
    input: &mut S,
) -> Result<Vec<Bytes>, SampleError>
    requires fits { IsTrue (fits space.now) }
    ensures answer { (script : List ℕ) → S.left input.old ≡ Some script → AnswersScript result space.now script (S.left input.new) }
    // What was taken is the front of the input, whatever the answer.
    ensures input { (script : List ℕ) → S.left input.old ≡ Some script → TakesFront script (S.left input.new) }
    ensures cause { HasSampleCause result (S.faults input.old) (S.faults input.new) }
    // Whether or not the content of the input is known.
    ensures kept { IfOk result (λ samples. AreKept space.now samples.items) }
    ensures complete { Completes result (S.left input.old) (S.faults input.old) (S.faults input.new) }
{
    let Ok(mut reader) = LineReader::new(alloc, input) else {
        return Err(SampleError::Memory);
    };
    samples_of_lines(alloc, space, &mut reader)
}

/// The samples that the lines of a new reader give, to the end of its input.
fn samples_of_lines<S: Source>(
    alloc: Global,
    space: &Space,
    reader: &mut LineReader<'_, S>,
) -> Result<Vec<Bytes>, SampleError>
    requires fits { IsTrue (fits space.now) }
    requires nothing_taken { taken reader.old ≡ 0 }
    requires nothing_unread { unread reader.old ≡ [] }
    requires not_ended { has_ended reader.old ≡ false }
    ensures answer { (script : List ℕ) → rest reader.old ≡ Some script
        → AnswersScript result space.now script (S.left reader.new.source.now) }
    ensures input { (script : List ℕ) → rest reader.old ≡ Some script → TakesFront script (S.left reader.new.source.now) }
    ensures cause { HasSampleCause result (faults reader.old) (faults reader.new) }
    ensures kept { IfOk result (λ samples. AreKept space.now samples.items) }
    ensures name { reader.new.source.ghost_name ≡ reader.old.source.ghost_name }
{
    let mut kept = Vec::new(alloc);
    let mut number = 0u64;
    loop {
        let line = match reader.take_line(alloc, LINE_LIMIT) {
            Ok(line) => line,
            Err(e) => return Err(stopped_by(e)),
        };
        if line.is_end() {
            return finish(kept);
        }
        number += 1;
        let object = object_of_line(alloc, space, &line, number)?;
        keep(&mut kept, object)?;
    }
}

/// The object of a sample line, whose number goes into the error if it is none.
fn object_of_line(
    alloc: Global,
    space: &Space,
    line: &Line,
    number: u64,
) -> Result<Bytes, SampleError>
    requires { IsTrue (fits space.now) }
    ensures exact { ReadsSample result (sample_of space.now line.now) number }
    ensures valid { IfOk result (λ object. IsValid space.now object) }
{
    let Line::Text(text) = line else {
        return Err(SampleError::BadSample { line: number });
    };
    match read_command(alloc, space, text.as_slice()) {
        Ok(Command::Sample { object }) => Ok(object),
        Ok(_) | Err(LineError::Bad(_)) => Err(SampleError::BadSample { line: number }),
        Err(LineError::Memory) => Err(SampleError::Memory),
    }
}

/// Keeps the object after the others, while there is room.
fn keep(kept: &mut Vec<Bytes>, object: Bytes) -> Result<(), Memory>
    ensures first { (objects : List (List ℕ)) → kept.old.items ≡ first_kept objects
        → OnOk result (kept.new.items ≡ first_kept (objects ++ object ∷ [])) }
    ensures valid { (space : Space) → All (IsValid space) kept.old.items → IsValid space object → OnOk result (All (IsValid space) kept.new.items) }
{
    if is_full(kept.as_slice()) {
        return Ok(());
    }
    kept.push(object)?;
    Ok(())
}

/// Whether no more are kept.
fn is_full(kept: &[Bytes]) -> bool
    ensures { IsTrue result ↔ (SAMPLE_LIMIT ≤ length kept.now) }
{
    kept.len() >= SAMPLE_LIMIT
}

/// The answer at the end of an input that gave these samples.
fn finish(kept: Vec<Bytes>) -> Result<Vec<Bytes>, SampleError>
    ensures { EndsWith result kept.items }
{
    if kept.is_empty() {
        return Err(SampleError::NoSample);
    }
    Ok(kept)
}

/// Why there are no samples if no line came.
fn stopped_by(e: EdgeError) -> SampleError
    ensures { result ≡ stopped_by e }
{
    match e {
        EdgeError::ReadFault => SampleError::ReadFault,
        EdgeError::InputLimit => SampleError::InputLimit,
        EdgeError::Memory => SampleError::Memory,
    }
}
