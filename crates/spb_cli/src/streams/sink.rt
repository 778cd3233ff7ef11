//! A writer of std as a sink.
ghost use Rattle.std.specs.Prelude.{◌≡◌, ◌<◌, None, length, IfOk};
ghost use Rattle.std.specs.Io.{WritesAtMost};
ghost use Rattle.std.specs.Io.KnownBytes.{WriteAppends, Keeps};
ghost use Rattle.spb_edge.specs.Sink.{AppendsTaken, IsCountWithin, CountsFault};
ghost use Rattle.spb_cli.specs.Streams.{WritesPrefix, WritesTo, CountsPut};

use super::MOST_TRIES;
use spb_edge::{Put, Sink, WriteFault};
use std::io::{ErrorKind, Write};

/// A writer of std as a sink. Nothing is known of the bytes taken.
///
/// What was taken of a piece is written and flushed, so that it is seen before the next is made. Only if the flush
/// failed may a prefix of the piece have been written that wasn't taken.
#[derive(Drop)]
pub struct StdSink<W: Write> {
    writer: W,
    faults: u64,
}

impl<W: Write> StdSink<W> {
    /// A sink into `writer`, that has counted no fault.
    pub fn new(writer: W) -> StdSink<W>
        ensures writer { result.writer ≡ writer }
        ensures faults { result.faults ≡ 0 }
    {
        StdSink { writer, faults: 0 }
    }
}

impl<W: Write> Sink for StdSink<W> {
    ghost use Rattle.std.specs.Prelude.{None};

    ghost taken = { λ _. None };

    ghost faults = { λ s. s.faults };

    fn put(&mut self, piece: &[u8]) -> Put
        requires { 0 < length piece.now }
        ensures within { IsCountWithin result (length piece.now) }
        ensures takes { AppendsTaken result piece.now None None }
        ensures fault { CountsFault result self.old.faults self.new.faults }
        // What the writer holds, if its bytes are known.
        ensures writes { WritesTo result (W.contents self.old.writer) (W.contents self.new.writer) piece.now }
        // Only a failure is counted.
        ensures counts { CountsPut result self.old.faults self.new.faults }
    {
        match write_and_flush(&mut self.writer, piece) {
            Ok(count) => Put::Took(count),
            Err(_) => {
                self.faults = self.faults.saturating_add(1);
                Put::Failed
            }
        }
    }
}

/// Writes a prefix of `bytes`, which isn't empty, by one write, made again if a signal interrupts
/// it. One that takes no byte has failed.
fn write_some<W: Write>(writer: &mut W, bytes: &[u8]) -> Result<usize, WriteFault>
    requires { 0 < length bytes.now }
    ensures some { IfOk result (λ count. 0 < count) }
    ensures within { WritesAtMost result bytes.now }
    ensures bytes { WriteAppends (W.contents writer.old) (W.contents writer.new) result bytes.now }
{
    for _ in 0..MOST_TRIES {
        match writer.write(bytes) {
            Ok(0) => return Err(WriteFault),
            Ok(count) => return Ok(count),
            Err(error) => {
                if error.kind() != ErrorKind::Interrupted {
                    return Err(WriteFault);
                }
            }
        }
    }
    Err(WriteFault)
}

/// Makes what was written seen, by a flush that is made again if a signal interrupts it.
fn flush<W: Write>(writer: &mut W) -> Result<(), WriteFault>
    ensures bytes { Keeps (W.contents writer.old) (W.contents writer.new) }
{
    for _ in 0..MOST_TRIES {
        match writer.flush() {
            Ok(()) => return Ok(()),
            Err(error) => {
                if error.kind() != ErrorKind::Interrupted {
                    return Err(WriteFault);
                }
            }
        }
    }
    Err(WriteFault)
}

/// Writes a prefix of `bytes`, which isn't empty, and makes it seen.
fn write_and_flush<W: Write>(writer: &mut W, bytes: &[u8]) -> Result<usize, WriteFault>
    requires { 0 < length bytes.now }
    ensures some { IfOk result (λ count. 0 < count) }
    ensures within { WritesAtMost result bytes.now }
    ensures writes { WritesPrefix result (W.contents writer.old) (W.contents writer.new) bytes.now }
{
    let count = write_some(writer, bytes)?;
    flush(writer)?;
    Ok(count)
}

#[cfg(test)]
mod tests {
    use super::*;
    use spb_edge::put_all;
    use std::alloc::Global;
    use std::io;

    /// A writer that keeps what is written, two bytes a call at most. Each call is interrupted once.
    #[derive(Drop)]
    struct SlowWriter {
        bytes: Vec<u8>,
        room: usize,
        flushes: u8,
        is_flush_refused: bool,
        is_interrupted: bool,
    }

    impl SlowWriter {
        fn new(alloc: Global, room: usize, is_flush_refused: bool) -> SlowWriter {
            SlowWriter {
                bytes: Vec::new(alloc),
                room,
                flushes: 0,
                is_flush_refused,
                is_interrupted: false,
            }
        }

        /// An error at each second call, from the first on.
        fn interrupt(&mut self) -> io::Result<()> {
            self.is_interrupted = !self.is_interrupted;
            if self.is_interrupted {
                return Err(io::Error::from(ErrorKind::Interrupted));
            }
            Ok(())
        }
    }

    impl Write for SlowWriter {
        fn write(&mut self, buf: &[u8]) -> io::Result<usize> {
            self.interrupt()?;
            let count = buf.len().min(2).min(self.room);
            self.bytes.extend_from_slice(&buf[..count])?;
            self.room -= count;
            Ok(count)
        }

        fn flush(&mut self) -> io::Result<()> {
            self.interrupt()?;
            self.flushes = self.flushes.saturating_add(1);
            if self.is_flush_refused {
                return Err(io::Error::from(ErrorKind::Other));
            }
            Ok(())
        }
    }

    #[test]
    fn sink_writes_and_flushes_each_piece(rt: HostRuntime) {
        let mut sink = StdSink::new(SlowWriter::new(rt.alloc(), 9, false));
        assert_eq!(rt; sink.put(b"hello"), Put::Took(2));
        assert_eq!(rt; sink.writer.flushes, 1);
        assert!(rt; put_all(&mut sink, b"llo sea").is_ok());
        assert_eq!(rt; sink.writer.bytes.as_slice(), b"hello sea".as_slice());
        assert_eq!(rt; sink.writer.flushes, 5);
        assert_eq!(rt; sink.faults, 0);
    }

    #[test]
    fn sink_counts_a_write_that_fails(rt: HostRuntime) {
        let mut sink = StdSink::new(SlowWriter::new(rt.alloc(), 3, false));
        assert!(rt; put_all(&mut sink, b"hello").is_err());
        assert_eq!(rt; sink.writer.bytes.as_slice(), b"hel".as_slice());
        assert_eq!(rt; sink.faults, 1);
    }

    #[test]
    fn sink_counts_a_flush_that_fails(rt: HostRuntime) {
        let mut sink = StdSink::new(SlowWriter::new(rt.alloc(), 9, true));
        assert_eq!(rt; sink.put(b"hello"), Put::Failed);
        assert_eq!(rt; sink.writer.flushes, 1);
        assert_eq!(rt; sink.faults, 1);
    }
}
