//! The lines of a stream, in whatever pieces it comes.
ghost use Rattle.std.specs.Prelude.{◌≡◌, ℕ, ◌+◌, ◌-◌, ◌<◌, ◌≤◌, List, [], ◌++◌, length, IfOk, OnOk, IsOk, Ok, false, IsTrue, ◌↔◌};
ghost use Rattle.spb_edge.specs.Source.{GivesBytes, IsCountWithin, CountsFault};

use crate::{Bytes, Memory, Source, Take};
use memchr::memchr;
use std::alloc::Global;
use thiserror::Error;

/// The most bytes that a reader takes from its source.
pub const INPUT_LIMIT: u64 = 1 << 30;

/// The most bytes that one take asks for.
const BUFFER: usize = 8192;

/// A line of a stream, without the LF that ends it.
#[derive(Debug, Drop)]
pub enum Line {
    /// A line within the limit.
    Text(Bytes),
    /// A line over the limit, which was read to its end.
    Long,
    /// No line is left.
    End,
}

impl Line {
    ghost use Rattle.spb_edge.specs.declared.reader.Line.{Line};
    ghost use Rattle.spb_edge.specs.Lines.{line_of};
    ghost use Rattle.spb_edge.specs.Reader.{IsLastLine};

    /// Whether no line is left.
    pub fn is_end(&self) -> bool
        ensures { IsTrue result ↔ (self.now ≡ Line.End) }
    {
        match self {
            Line::Text(_) | Line::Long => false,
            Line::End => true,
        }
    }

    /// The line that goes on with `piece`.
    fn longer(self, piece: &[u8], limit: usize) -> Result<Line, Memory>
        ensures { (front : List ℕ) → self ≡ line_of limit front
            → IfOk result (λ line. line ≡ line_of limit (front ++ piece.now)) }
    {
        match self {
            Line::Text(mut text) => {
                if piece.len() > limit.saturating_sub(text.as_slice().len()) {
                    return Ok(Line::Long);
                }
                text.append(piece)?;
                Ok(Line::Text(text))
            }
            Line::Long => Ok(Line::Long),
            Line::End => Ok(Line::End),
        }
    }

    /// The line that ends with the stream: none if it has no byte.
    fn closed(self, limit: usize) -> Line
        ensures { IsLastLine limit self result }
    {
        match self {
            Line::Text(text) if text.as_slice().is_empty() => Line::End,
            line => line,
        }
    }
}

/// What a look at the unread bytes made of a line.
#[derive(Debug, Drop)]
enum Scanned {
    /// An LF ended it.
    Ended(Line),
    /// It goes on after them.
    Open(Line),
}

/// Why no line came.
#[derive(Clone, Copy, Debug, PartialEq, Eq, Drop, Error)]
pub enum EdgeError {
    /// The source failed, and counted it.
    #[error("read fault")]
    ReadFault,
    /// The source gave more than [`INPUT_LIMIT`] bytes.
    #[error("input limit")]
    InputLimit,
    /// Memory ran out.
    #[error("out of memory")]
    Memory,
}

impl From<Memory> for EdgeError {
    ghost use Rattle.std.specs.Prelude.{◌≡◌};
    ghost use Rattle.spb_edge.specs.declared.reader.EdgeError.TheVariants as edge;

    ghost from_gives = { λ _ e. e ≡ edge.Memory };

    fn from(_: Memory) -> EdgeError {
        EdgeError::Memory
    }
}

/// Gives the lines of a source one by one, however its bytes are cut into pieces.
///
/// It keeps the reference that it was made with, and dropping it takes nothing from the source. Its
/// buffer is part of it, so that only the text of a line takes memory.
#[derive(Drop)]
pub struct LineReader<'a, S: Source> {
    source: &'a mut S,
    buffer: [u8; BUFFER],
    start: usize,
    end: usize,
    taken: u64,
    ended: bool,
    ghost within: { (start ≤ end) × (end ≤ 8192) × (end - start ≤ taken) },
}

impl<'a, S: Source> LineReader<'a, S> {
    ghost use Rattle.spb_edge.specs.Reader.{unread, rest, taken, faults, has_ended, budget, CanTakeLine, TakesOff, IsTakenFor, IsNextLine, HasLineCause, EndsAgain, LowersBudget, Refills, IsScanned};

    /// A reader of what the source has left. It takes no memory.
    pub fn new(_alloc: Global, source: &'a mut S) -> Result<LineReader<'a, S>, Memory>
        ensures made { IsOk result }
        ensures nothing_unread { IfOk result (λ reader. unread reader ≡ []) }
        ensures nothing_taken { IfOk result (λ reader. taken reader ≡ 0) }
        ensures not_ended { IfOk result (λ reader. has_ended reader ≡ false) }
        ensures name { IfOk result (λ reader. reader.source.ghost_name ≡ source.entry.ghost_name) }
        ensures at { IfOk result (λ reader. reader.source.now ≡ source.old) }
    {
        Ok(LineReader {
            source,
            buffer: [0; BUFFER],
            start: 0,
            end: 0,
            taken: 0,
            ended: false,
        })
    }

    /// The next line, however the source's bytes are cut into pieces: its text if it is within `limit` bytes,
    /// [`Line::Long`] if it is over it, and [`Line::End`] if nothing is left.
    ///
    /// No earlier call of this reader may have answered an error. `ReadFault` comes only if the source counted a fault
    /// in this call, and `InputLimit` exactly if [`INPUT_LIMIT`] bytes were taken and the next take gave more. If one
    /// of these comes, each line that an LF ended among the bytes taken within the limit was answered before. After an
    /// error the beginning of the line in progress may be gone, and nothing more. It looks at each byte once, and
    /// copies the text of the line into memory of its own.
    pub fn take_line(&mut self, alloc: Global, limit: usize) -> Result<Line, EdgeError>
        requires open { CanTakeLine self.old }
        ensures open { OnOk result (CanTakeLine self.new) }
        // It is the first of the lines that are left, or End if there is none.
        ensures line { IfOk result (λ line. IsNextLine limit line (rest self.old) (rest self.new)) }
        // Which bytes went, whatever the answer.
        ensures consumed { (bytes : List ℕ) × TakesOff self.old self.new bytes
            × IsTakenFor limit result bytes (rest self.new) (has_ended self.new) }
        ensures cause { HasLineCause result (faults self.old) (faults self.new) (taken self.new)
            (length (unread self.new)) }
        // After the end of the stream the source isn't asked again.
        ensures after_end { IsTrue (has_ended self.old) → EndsAgain result }
        ensures unasked { IsTrue (has_ended self.old) → self.new.source.now ≡ self.old.source.now }
        // A caller's loop over the lines ends, also if the source's content isn't known.
        ensures progress { LowersBudget result (budget self.old) (budget self.new) }
        ensures name { self.new.source.ghost_name ≡ self.old.source.ghost_name }
    {
        let mut line = Line::Text(Bytes::of(alloc, &[])?);
        loop {
            match self.scan(line, limit)? {
                Scanned::Ended(ended) => return Ok(ended),
                Scanned::Open(open) => line = open,
            }
            if !self.refill()? {
                return Ok(line.closed(limit));
            }
        }
    }

    /// Goes on with the line by what is unread, to the first LF or to the end of the buffer.
    fn scan(&mut self, line: Line, limit: usize) -> Result<Scanned, Memory>
        ensures scans { IsScanned limit line result self.old self.new }
        ensures source { self.new.source.now ≡ self.old.source.now }
        ensures taken { taken self.new ≡ taken self.old }
        ensures ended { has_ended self.new ≡ has_ended self.old }
        ensures name { self.new.source.ghost_name ≡ self.old.source.ghost_name }
    {
        let unread = &self.buffer[self.start..self.end];
        match memchr(b'\n', unread) {
            Some(count) => {
                let line = line.longer(&unread[..count], limit)?;
                self.start += count + 1;
                Ok(Scanned::Ended(line))
            }
            None => {
                let line = line.longer(unread, limit)?;
                self.start = self.end;
                Ok(Scanned::Open(line))
            }
        }
    }

    /// Takes the next bytes into the buffer, which is empty; whether any came. Once the source has said
    /// that nothing is left, it isn't asked again.
    fn refill(&mut self) -> Result<bool, EdgeError>
        requires empty { unread self.old ≡ [] }
        requires open { CanTakeLine self.old }
        ensures refills { Refills result self.old self.new }
        ensures after_end { IsTrue (has_ended self.old) → result ≡ Ok false }
        ensures unasked { IsTrue (has_ended self.old) → self.new.source.now ≡ self.old.source.now }
        ensures name { self.new.source.ghost_name ≡ self.old.source.ghost_name }
    {
        if self.ended {
            return Ok(false);
        }
        let left = INPUT_LIMIT - self.taken;
        let room = left.max(1).min(BUFFER as u64) as usize;
        match fill(self.source, &mut self.buffer, room) {
            Take::Got(count) => {
                self.start = 0;
                self.end = count;
                self.taken += count as u64;
                if left == 0 {
                    return Err(EdgeError::InputLimit);
                }
                Ok(true)
            }
            Take::End => {
                self.ended = true;
                Ok(false)
            }
            Take::Failed => Err(EdgeError::ReadFault),
        }
    }
}

/// Takes the next bytes into the start of the buffer, `room` of them at most.
fn fill<S: Source>(source: &mut S, buffer: &mut [u8], room: usize) -> Take
    requires some { 0 < room }
    requires within { room ≤ length buffer.old }
    ensures within { IsCountWithin result room }
    ensures gives { GivesBytes result buffer.new (S.left source.old) (S.left source.new) }
    ensures fault { CountsFault result (S.faults source.old) (S.faults source.new) }
{
    source.take(&mut buffer[..room])
}
