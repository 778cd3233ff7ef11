//! A source in memory, for tests.
ghost use Rattle.std.specs.Prelude.{◌+◌, ◌<◌, ◌≤◌, Some, length, IfOk};
ghost use Rattle.spb_edge.specs.MemSource.{SourceState, IsNewSource, AnswersTake};
ghost use Rattle.spb_edge.specs.Source.{GivesBytes, IsCountWithin, CountsFault};

use crate::{Bytes, Memory, Source, Take};
use std::alloc::Global;
use std::marker::Model;

/// Bytes in memory as a source, in pieces of a given size, some of whose calls fail.
#[derive(Debug, Drop)]
pub struct MemSource {
    bytes: Bytes,
    at: usize,
    piece: usize,
    failing: Vec<u64>,
    calls: u64,
    faults: u64,
}

impl Model for MemSource {
    ghost use Rattle.std.specs.Prelude.{drop, length, ◌≤◌, ◌<◌};
    ghost use Rattle.spb_edge.specs.MemSource.{SourceState};

    ghost Value = { SourceState };

    ghost view = { λ s. record {
      left = drop s.at s.bytes;
      piece = s.piece;
      failing = s.failing.items;
      calls = s.calls;
      faults = s.faults;
    } };

    ghost invariant = { λ s. (s.at ≤ length s.bytes) × (0 < s.piece) };
}

impl MemSource {
    /// A source of a copy of `bytes` that gives at most `piece` of them at a time, which is at least
    /// 1. Calls are numbered from 1, and those whose number is in `failing` fail; no other call does.
    pub fn new(
        alloc: Global,
        bytes: &[u8],
        piece: usize,
        failing: &[u64],
    ) -> Result<MemSource, Memory>
        requires { 0 < piece }
        ensures { IfOk result (λ source. IsNewSource source bytes.now piece failing.now) }
    {
        Ok(MemSource {
            bytes: Bytes::of(alloc, bytes)?,
            at: 0,
            piece,
            failing: Vec::from_slice(alloc, failing)?,
            calls: 0,
            faults: 0,
        })
    }
}

impl Source for MemSource {
    ghost left = { λ s. Some s.left };

    ghost faults = { λ s. s.faults };

    fn take(&mut self, into: &mut [u8]) -> Take
        requires { 0 < length into.old }
        ensures within { IsCountWithin result (length into.old) }
        ensures gives { GivesBytes result into.new (Some self.old.left) (Some self.new.left) }
        ensures fault { CountsFault result self.old.faults self.new.faults }
        // Which calls fail, and how many bytes the others give.
        ensures exact { AnswersTake self.old (length into.old) result self.new }
    {
        self.calls = self.calls.saturating_add(1);
        if self.failing.contains(&self.calls) {
            self.faults = self.faults.saturating_add(1);
            return Take::Failed;
        }
        let left = &self.bytes.as_slice()[self.at..];
        if left.is_empty() {
            return Take::End;
        }
        let count = left.len().min(self.piece).min(into.len());
        into[..count].copy_from_slice(&left[..count]);
        self.at += count;
        Take::Got(count)
    }
}
