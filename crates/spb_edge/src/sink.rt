//! Sinks, and putting all bytes into one.
ghost use Rattle.std.specs.Prelude.{ℕ, ◌<◌, List, Option, length};
ghost use Rattle.spb_edge.specs.Fault.{CountsError};
ghost use Rattle.spb_edge.specs.Sink.{PutsAll};

use thiserror::Error;

/// What a call of [`Sink::put`] answers.
#[derive(Clone, Copy, Debug, PartialEq, Eq)]
pub enum Put {
    /// This many of the first bytes of the piece, at least one, were taken.
    Took(usize),
    /// Nothing was taken, and the sink counted a fault.
    Failed,
}

/// Where bytes go to, in pieces of any size.
pub trait Sink {
    ghost use Rattle.std.specs.Prelude.{ℕ, ◌<◌, List, Option, length};
    ghost use Rattle.spb_edge.specs.Sink.{AppendsTaken, IsCountWithin, CountsFault};

    // the bytes taken so far, if they are known
    ghost taken: { Self → Option (List ℕ) };

    // how many calls failed so far
    ghost faults: { Self → ℕ };

    /// Takes the first bytes of `piece`, which isn't empty.
    fn put(&mut self, piece: &[u8]) -> Put
        requires { 0 < length piece.now }
        ensures within { IsCountWithin result (length piece.now) }
        ensures takes { AppendsTaken result piece.now (taken self.old) (taken self.new) }
        ensures fault { CountsFault result (faults self.old) (faults self.new) };
}

/// A sink failed before it had taken all.
#[derive(Clone, Copy, Debug, PartialEq, Eq, Drop, Error)]
#[error("write fault")]
pub struct WriteFault;

/// Puts all of `bytes` into the sink, by as many calls as it takes. On a fault a proper prefix of them was put.
pub fn put_all<K: Sink>(sink: &mut K, bytes: &[u8]) -> Result<(), WriteFault>
    ensures puts { PutsAll result bytes.now (K.taken sink.old) (K.taken sink.new) }
    ensures fault { CountsError result (K.faults sink.old) (K.faults sink.new) }
{
    let mut done = 0;
    while done < bytes.len() {
        match sink.put(&bytes[done..]) {
            Put::Took(count) => done += count,
            Put::Failed => return Err(WriteFault),
        }
    }
    Ok(())
}
