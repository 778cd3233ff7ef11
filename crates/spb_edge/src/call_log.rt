//! The record of the calls of a disk in memory.
ghost use Rattle.std.specs.Prelude.{◌≡◌, ◌<◌, ◌≤◌, [], length, IfOk, true, if◌then◌else◌};
ghost use Rattle.spb_edge.specs.CallLog.{Log, empty_log, is_made, fails_next, with_refusal, with_call, log_after, succeeds};
ghost use Rattle.spb_edge.specs.Disk.{CountsFault};
ghost use Rattle.spb_edge.specs.Fault.{HasRisen};

use crate::{DiskError, Memory};
use std::alloc::Global;
use std::marker::Model;

/// A call of a disk.
#[derive(Clone, Copy, Debug, PartialEq, Eq)]
pub enum DiskCall {
    /// A call of `size`.
    Size,
    /// A call of `read`.
    Read {
        /// The first byte.
        at: u64,
        /// How many bytes.
        len: u64,
    },
    /// A call of `write_at`.
    Write {
        /// The first byte.
        at: u64,
        /// How many bytes.
        len: u64,
    },
    /// A call of `sync`.
    Sync,
}

/// The calls so far, with the bytes of their writes, and which of them fail.
#[derive(Debug, Drop)]
pub(crate) struct Log {
    calls: Vec<DiskCall>,
    written: Vec<u8>,
    failing: Vec<u64>,
    stop: Option<u64>,
    call_room: usize,
    byte_room: usize,
    faults: u64,
}

impl Model for Log {
    ghost use Rattle.std.specs.Prelude.{◌≤◌, vec_len, vec_capacity};
    ghost use Rattle.spb_edge.specs.CallLog as words;

    ghost Value = { words.Log };

    ghost view = { λ l. record {
      calls = l.calls.items;
      written = l.written.items;
      failing = l.failing.items;
      stop = l.stop;
      call_room = l.call_room;
      byte_room = l.byte_room;
      faults = l.faults;
    } };

    ghost invariant = { λ l. (vec_len l.calls ≤ l.call_room) × (l.call_room ≤ vec_capacity l.calls)
        × (vec_len l.written ≤ l.byte_room) × (l.byte_room ≤ vec_capacity l.written) };
}

impl Log {
    /// An empty record, which takes its memory now.
    pub(crate) fn new(
        alloc: Global,
        failing: &[u64],
        stop: Option<u64>,
        calls: usize,
        bytes: usize,
    ) -> Result<Log, Memory>
        ensures { IfOk result (λ log. log ≡ empty_log failing.now stop calls bytes) }
    {
        Ok(Log {
            calls: Vec::with_capacity(alloc, calls)?,
            written: Vec::with_capacity(alloc, bytes)?,
            failing: Vec::from_slice(alloc, failing)?,
            stop,
            call_room: calls,
            byte_room: bytes,
            faults: 0,
        })
    }

    /// The calls in order.
    pub(crate) fn calls(&self) -> &[DiskCall]
        ensures { result.now ≡ self.now.calls }
    {
        self.calls.as_slice()
    }

    /// The bytes of all writes, joined in order.
    pub(crate) fn written(&self) -> &[u8]
        ensures { result.now ≡ self.now.written }
    {
        self.written.as_slice()
    }

    /// Whether a call that writes `count` bytes is made: the disk has not stopped, and there is room.
    pub(crate) fn accepts(&self, count: usize) -> bool
        ensures { result ≡ is_made self.now count }
    {
        let made = self.calls.len();
        let runs = match self.stop {
            Some(stop) => (made as u64) < stop,
            None => true,
        };
        runs && made < self.call_room && count <= self.byte_room - self.written.len()
    }

    /// Whether the next call fails, if it is made.
    pub(crate) fn fails_next(&self) -> bool
        requires { length self.now.calls < self.now.call_room }
        ensures { result ≡ fails_next self.now }
    {
        self.failing.contains(&(self.calls.len() as u64 + 1))
    }

    /// Counts a call that isn't made.
    pub(crate) fn refuse(&mut self)
        ensures state { self.new ≡ with_refusal self.old }
        ensures fault { (self.old.faults ≤ self.new.faults) × HasRisen self.old.faults self.new.faults }
    {
        self.faults = self.faults.saturating_add(1);
    }

    /// Records a call that is made, with the bytes that it writes, and counts it if it fails.
    pub(crate) fn note(&mut self, call: DiskCall, bytes: &[u8]) -> Result<(), DiskError>
        requires { is_made self.old (length bytes.now) ≡ true }
        ensures state { self.new ≡ with_call call bytes.now self.old }
        ensures answer { result ≡ (if fails_next self.old then Err DiskError.Failed else Ok tt) }
        ensures fault { CountsFault result self.old.faults self.new.faults }
    {
        let fails = self.fails_next();
        let (Ok(()), Ok(())) = (self.calls.push(call), self.written.extend_from_slice(bytes)) else {
            unreachable!()
        };
        if fails {
            self.faults = self.faults.saturating_add(1);
            return Err(DiskError::Failed);
        }
        Ok(())
    }

    /// One more call that writes nothing, if it is made.
    pub(crate) fn call(&mut self, call: DiskCall) -> Result<(), DiskError>
        ensures state { self.new ≡ log_after call [] self.old }
        ensures answer { result ≡ (if succeeds self.old 0 then Ok tt else Err DiskError.Failed) }
        ensures fault { CountsFault result self.old.faults self.new.faults }
    {
        if !self.accepts(0) {
            self.refuse();
            return Err(DiskError::Failed);
        }
        self.note(call, &[])
    }
}
