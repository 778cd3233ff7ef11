//! A sink in memory, for tests.
ghost use Rattle.std.specs.Prelude.{◌≡◌, ◌<◌, ◌≤◌, Some, length, IfOk, vec_len, vec_capacity};
ghost use Rattle.spb_edge.specs.MemSink.{SinkState, IsNewSink, AnswersPut};
ghost use Rattle.spb_edge.specs.Sink.{AppendsTaken, IsCountWithin, CountsFault};

use crate::{Memory, Put, Sink};
use std::alloc::Global;
use std::marker::Model;

/// A sink in memory with limited room, some of whose calls fail.
#[derive(Debug, Drop)]
pub struct MemSink {
    taken: Vec<u8>,
    room: usize,
    failing: Vec<u64>,
    calls: u64,
    faults: u64,
}

impl Model for MemSink {
    ghost use Rattle.std.specs.Prelude.{◌≤◌, vec_len, vec_capacity};
    ghost use Rattle.spb_edge.specs.MemSink.{SinkState};

    ghost Value = { SinkState };

    ghost view = { λ s. record {
      taken = s.taken.items;
      room = s.room;
      failing = s.failing.items;
      calls = s.calls;
      faults = s.faults;
    } };

    ghost invariant = { λ s. (vec_len s.taken ≤ s.room) × (s.room ≤ vec_capacity s.taken) };
}

impl MemSink {
    /// An empty sink with room for `room` bytes, whose memory it takes now. Calls are numbered from 1, and those whose
    /// number is in `failing` fail; any other fails exactly if no room is left.
    pub fn new(alloc: Global, room: usize, failing: &[u64]) -> Result<MemSink, Memory>
        ensures { IfOk result (λ sink. IsNewSink sink room failing.now) }
    {
        Ok(MemSink {
            taken: Vec::with_capacity(alloc, room)?,
            room,
            failing: Vec::from_slice(alloc, failing)?,
            calls: 0,
            faults: 0,
        })
    }

    /// All bytes that the sink took, in order.
    pub fn taken(&self) -> &[u8]
        ensures { result.now ≡ self.now.taken }
    {
        self.taken.as_slice()
    }
}

impl Sink for MemSink {
    ghost taken = { λ s. Some s.taken };

    ghost faults = { λ s. s.faults };

    fn put(&mut self, piece: &[u8]) -> Put
        requires { 0 < length piece.now }
        ensures within { IsCountWithin result (length piece.now) }
        ensures takes { AppendsTaken result piece.now (Some self.old.taken) (Some self.new.taken) }
        ensures fault { CountsFault result self.old.faults self.new.faults }
        // Which calls fail, and how many bytes the others take.
        ensures exact { AnswersPut self.old (length piece.now) result self.new }
    {
        self.calls = self.calls.saturating_add(1);
        let free = self.room - self.taken.len();
        if free == 0 || self.failing.contains(&self.calls) {
            self.faults = self.faults.saturating_add(1);
            return Put::Failed;
        }
        let count = piece.len().min(free);
        let Ok(()) = self.taken.extend_from_slice(&piece[..count]) else {
            unreachable!()
        };
        Put::Took(count)
    }
}
