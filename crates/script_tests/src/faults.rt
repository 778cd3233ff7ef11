//! Streams that come in pieces, fail or never end.
use crate::plays::{PLANE, owned, play_over};
use spb_edge::{EndlessSource, MemSink, MemSource, SureDisk};
use spb_top::{Status, run};
use std::alloc::Global;
use std::test::Fail;

/// The streams of a run of `mem l1 2 255`, how it ends and what it writes.
#[derive(Drop)]
struct Streams {
    script: &'static str,
    /// How many bytes come at once at most.
    piece: usize,
    /// The calls of the source that fail.
    failed_takes: &'static [u64],
    /// How many bytes the sink takes.
    room: usize,
    /// The calls of the sink that fail.
    failed_puts: &'static [u64],
    status: Status,
    text: &'static str,
}

const SCRIPT: &str = "add 0 1 0,0\nrange 0 0 0,0\n";

const FAULTS: [Streams; 3] = [
    // a source that fails in the middle of a line
    Streams {
        script: "count 0\ncount 0\n",
        piece: 11,
        failed_takes: &[2],
        room: 4096,
        failed_puts: &[],
        status: Status::ReadFault,
        text: "count 0\n",
    },
    // a sink with room for a part
    Streams {
        script: SCRIPT,
        piece: 64,
        failed_takes: &[],
        room: 5,
        failed_puts: &[],
        status: Status::WriteFault,
        text: "ok\nra",
    },
    // a sink whose second call fails
    Streams {
        script: SCRIPT,
        piece: 64,
        failed_takes: &[],
        room: 4096,
        failed_puts: &[2],
        status: Status::WriteFault,
        text: "ok\n",
    },
];

/// Whether the run over the streams ends and writes so.
fn is_so(alloc: Global, streams: &Streams) -> Result<bool, Fail> {
    let script = streams.script.as_bytes();
    let mut input = MemSource::new(alloc, script, streams.piece.max(1), streams.failed_takes)?;
    let mut output = MemSink::new(alloc, streams.room, streams.failed_puts)?;
    let status = play_over(alloc, &PLANE, &mut input, &mut output)?;
    Ok(status == streams.status && output.taken() == streams.text.as_bytes())
}

#[test]
fn a_stream_that_fails_ends_the_run(rt: HostRuntime) -> Result<(), Fail> {
    for streams in &FAULTS {
        assert!(rt; is_so(rt.alloc(), streams)?, "{}", streams.text);
    }
    Ok(())
}

/// Whether a script whose last line has no LF is answered when at most this many bytes come at once.
fn is_answered_in_pieces(alloc: Global, piece: usize) -> Result<bool, Fail> {
    let streams = Streams {
        script: "add 0 1 0,0\nadd 0 2 3,4\n\nrange 0 7 0,0\nadd 0 1 1,1\nrange 0 6 0,0",
        piece,
        failed_takes: &[],
        room: 4096,
        failed_puts: &[],
        status: Status::Done,
        text: "ok\nok\nbad command\nrange 2 evals 2 sure 0: 1 2\nexists\nrange 1 evals 2 sure 0: 1\n",
    };
    is_so(alloc, &streams)
}

#[test]
fn pieces_of_any_size_give_the_same_text(rt: HostRuntime) -> Result<(), Fail> {
    for piece in [1, 2, 3, 4, 5, 4096] {
        assert!(rt; is_answered_in_pieces(rt.alloc(), piece)?, "{piece}");
    }
    Ok(())
}

#[test]
fn an_endless_source_ends_at_the_limit(rt: HostRuntime) -> Result<(), Fail> {
    let words = owned(rt.alloc(), &PLANE)?;
    let mut input = EndlessSource { byte: b'a' };
    let mut output = MemSink::new(rt.alloc(), 4096, &[])?;
    let mut disk = SureDisk::new(rt.alloc(), &[])?;
    let status = run(rt.alloc(), &words, &mut input, &mut output, &mut disk);
    assert_eq!(rt; status, Status::InputLimit);
    assert!(rt; output.taken().is_empty());
    Ok(())
}
