//! A reader of std as a source.
ghost use Rattle.std.specs.Prelude.{◌≡◌, ◌≢◌, ◌<◌, None, length, IfErr};
ghost use Rattle.std.specs.Io.{ReadsAtMost};
ghost use Rattle.std.specs.Io.KnownBytes.{ReadConsumes};
ghost use Rattle.std.specs.IoError.{error_kind};
ghost use Rattle.spb_edge.specs.Source.{GivesBytes, IsCountWithin, CountsFault};
ghost use Rattle.spb_cli.specs.Streams.{ReadsFrom, CountsTake};

use super::MOST_TRIES;
use spb_edge::{Source, Take};
use std::io;
use std::io::{ErrorKind, Read};

/// A reader of std as a source. Nothing is known of the bytes to come.
#[derive(Drop)]
pub struct StdSource<R: Read> {
    reader: R,
    faults: u64,
}

impl<R: Read> StdSource<R> {
    /// A source of what `reader` gives from now on, that has counted no fault.
    pub fn new(reader: R) -> StdSource<R>
        ensures reader { result.reader ≡ reader }
        ensures faults { result.faults ≡ 0 }
    {
        StdSource { reader, faults: 0 }
    }
}

impl<R: Read> Source for StdSource<R> {
    ghost use Rattle.std.specs.Prelude.{None};

    ghost left = { λ _. None };

    ghost faults = { λ s. s.faults };

    fn take(&mut self, into: &mut [u8]) -> Take
        requires { 0 < length into.old }
        ensures within { IsCountWithin result (length into.old) }
        ensures gives { GivesBytes result into.new None None }
        ensures fault { CountsFault result self.old.faults self.new.faults }
        // What the reader gave, if its bytes are known.
        ensures reads { ReadsFrom result (R.remaining self.old.reader) (R.remaining self.new.reader) into.new }
        // Only a failure is counted.
        ensures counts { CountsTake result self.old.faults self.new.faults }
    {
        match read_some(&mut self.reader, into) {
            Ok(0) => Take::End,
            Ok(count) => Take::Got(count),
            Err(_) => {
                self.faults = self.faults.saturating_add(1);
                Take::Failed
            }
        }
    }
}

/// One read, made again if a signal interrupts it.
fn read_some<R: Read>(reader: &mut R, into: &mut [u8]) -> io::Result<usize>
    ensures within { ReadsAtMost result into.new }
    ensures bytes { ReadConsumes (R.remaining reader.old) (R.remaining reader.new) result into.new }
    ensures retried { IfErr result (λ error. error_kind error ≢ ErrorKind.Interrupted) }
{
    for _ in 0..MOST_TRIES {
        match reader.read(into) {
            Ok(count) => return Ok(count),
            Err(error) => {
                if error.kind() != ErrorKind::Interrupted {
                    return Err(error);
                }
            }
        }
    }
    Err(io::Error::from(ErrorKind::TimedOut))
}

#[cfg(test)]
mod tests {
    use super::*;

    /// A reader whose calls are interrupted so often, and then fail.
    #[derive(Drop)]
    struct BrokenReader {
        interrupts: u8,
    }

    impl Read for BrokenReader {
        fn read(&mut self, _buf: &mut [u8]) -> io::Result<usize> {
            if self.interrupts == 0 {
                return Err(io::Error::from(ErrorKind::Other));
            }
            self.interrupts -= 1;
            Err(io::Error::from(ErrorKind::Interrupted))
        }
    }

    #[test]
    fn source_gives_the_bytes_and_then_the_end(rt: HostRuntime) {
        let mut source = StdSource::new(b"abc".as_slice());
        let mut into = [0u8; 2];
        assert_eq!(rt; source.take(&mut into), Take::Got(2));
        assert_eq!(rt; into.as_slice(), b"ab".as_slice());
        assert_eq!(rt; source.take(&mut into), Take::Got(1));
        assert_eq!(rt; into[0], b'c');
        assert_eq!(rt; source.take(&mut into), Take::End);
        assert_eq!(rt; source.faults, 0);
    }

    #[test]
    fn source_counts_each_read_that_fails(rt: HostRuntime) {
        let mut source = StdSource::new(BrokenReader { interrupts: 3 });
        let mut into = [0u8; 2];
        assert_eq!(rt; source.take(&mut into), Take::Failed);
        assert_eq!(rt; source.faults, 1);
        assert_eq!(rt; source.reader.interrupts, 0);
        assert_eq!(rt; source.take(&mut into), Take::Failed);
        assert_eq!(rt; source.faults, 2);
    }
}
