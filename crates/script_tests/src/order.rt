//! The reply to a line is written before more of the input is taken.
use crate::plays::{PLANE, owned};
use spb_edge::{Put, Sink, Source, SureDisk, Take};
use spb_top::{Status, run};
use std::cell::Cell;
use std::test::Fail;

/// A line, and the reply to it.
const LINE: &[u8; 8] = b"count 0\n";

/// How many bytes the script has: the line three times.
const SCRIPT_LENGTH: usize = 24;

/// A source that gives the script a byte at a time, and sees whether the sink has the replies to the lines
/// given, each time that it is asked for a line's first byte or for more than the script.
#[derive(Drop)]
struct WatchingSource<'a> {
    written: &'a Cell<usize>,
    given: usize,
    is_reply_missing: bool,
}

impl Source for WatchingSource<'_> {
    ghost use Rattle.std.specs.Prelude.{None};

    ghost left = { λ _. None };

    ghost faults = { λ _. 0 };

    fn take(&mut self, into: &mut [u8]) -> Take {
        let place = self.given % LINE.len();
        if place == 0 && self.written.get() != self.given {
            self.is_reply_missing = true;
        }
        if self.given >= SCRIPT_LENGTH {
            return Take::End;
        }
        into[0] = LINE[place];
        self.given += 1;
        Take::Got(1)
    }
}

/// A sink that counts the bytes.
#[derive(Drop)]
struct CountingSink<'a> {
    written: &'a Cell<usize>,
}

impl Sink for CountingSink<'_> {
    ghost use Rattle.std.specs.Prelude.{None};

    ghost taken = { λ _. None };

    ghost faults = { λ _. 0 };

    fn put(&mut self, piece: &[u8]) -> Put {
        self.written
            .set(self.written.get().saturating_add(piece.len()));
        Put::Took(piece.len())
    }
}

#[test]
fn each_reply_is_written_before_more_is_taken(rt: HostRuntime) -> Result<(), Fail> {
    let written = Cell::new(0);
    let mut input = WatchingSource {
        written: &written,
        given: 0,
        is_reply_missing: false,
    };
    let mut output = CountingSink { written: &written };
    let words = owned(rt.alloc(), &PLANE)?;
    let mut disk = SureDisk::new(rt.alloc(), &[])?;
    let status = run(rt.alloc(), &words, &mut input, &mut output, &mut disk);
    assert_eq!(rt; status, Status::Done);
    assert!(rt; !input.is_reply_missing);
    assert_eq!(rt;
        (input.given, written.get()),
        (SCRIPT_LENGTH, SCRIPT_LENGTH)
    );
    Ok(())
}
