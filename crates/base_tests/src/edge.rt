//! That each call can succeed, how errors print, and worked streams.
ghost use Rattle.std.specs.Prelude.{◌≤◌, length, OnOk};
ghost use Rattle.spb_edge.specs.Reader.{CanTakeLine};

use spb_edge::{
    Bytes, Choice, Disk, DiskCall, DiskError, EdgeError, EndlessSource, Ids, Line, LineReader,
    MemDisk, MemSink, MemSource, Memory, Source, SureDisk, Take, WriteFault, put_all,
};
use std::alloc::Global;
use std::test::Fail;

/// Writes down the next line, and a bar after it.
fn note<S: Source>(
    reader: &mut LineReader<'_, S>,
    alloc: Global,
    limit: usize,
    notes: &mut Bytes,
) -> Result<(), Fail>
    requires { CanTakeLine reader.old }
    ensures { OnOk result (CanTakeLine reader.new) }
{
    match reader.take_line(alloc, limit)? {
        Line::Text(text) => notes.append(text.as_slice())?,
        Line::Long => notes.append(b"(long)")?,
        Line::End => notes.append(b"(end)")?,
    }
    notes.append(b"|")?;
    Ok(())
}

/// The first six answers on the stream.
fn notes_of(alloc: Global, stream: &[u8], limit: usize, piece: usize) -> Result<Bytes, Fail> {
    let mut notes = Bytes::of(alloc, &[])?;
    let mut source = MemSource::new(alloc, stream, piece.max(1), &[])?;
    let mut reader = LineReader::new(alloc, &mut source)?;
    note(&mut reader, alloc, limit, &mut notes)?;
    note(&mut reader, alloc, limit, &mut notes)?;
    note(&mut reader, alloc, limit, &mut notes)?;
    note(&mut reader, alloc, limit, &mut notes)?;
    note(&mut reader, alloc, limit, &mut notes)?;
    note(&mut reader, alloc, limit, &mut notes)?;
    Ok(notes)
}

#[test]
fn lines_whatever_the_pieces(rt: HostRuntime) -> Result<(), Fail> {
    for (stream, limit, notes) in [
        ("ab\n\ncdefg\nx", 4, "ab||(long)|x|(end)|(end)|"),
        ("", 4, "(end)|(end)|(end)|(end)|(end)|(end)|"),
        ("\n", 0, "|(end)|(end)|(end)|(end)|(end)|"),
        ("a\r\n\r\nb\r", 2, "a\r|\r|b\r|(end)|(end)|(end)|"),
        ("abcd\nabcde", 4, "abcd|(long)|(end)|(end)|(end)|(end)|"),
    ] {
        for piece in [1, 3, 64] {
            let answered = notes_of(rt.alloc(), stream.as_bytes(), limit, piece)?;
            assert!(rt;
                answered.as_slice() == notes.as_bytes(),
                "{stream} by {piece}"
            );
        }
    }
    Ok(())
}

#[test]
fn a_source_that_fails_in_mid_stream(rt: HostRuntime) -> Result<(), Fail> {
    let mut notes = Bytes::of(rt.alloc(), &[])?;
    let mut source = MemSource::new(rt.alloc(), b"ab\ncd\n", 3, &[2])?;
    let mut reader = LineReader::new(rt.alloc(), &mut source)?;
    note(&mut reader, rt.alloc(), 4, &mut notes)?;
    assert!(rt; notes.as_slice() == b"ab|".as_slice());
    match reader.take_line(rt.alloc(), 4) {
        Err(e) => assert!(rt; e == EdgeError::ReadFault),
        Ok(_) => panic!(rt; "a line"),
    }
    Ok(())
}

#[test]
fn an_ended_source_is_not_asked_again(rt: HostRuntime) -> Result<(), Fail> {
    let mut notes = Bytes::of(rt.alloc(), &[])?;
    let mut source = MemSource::new(rt.alloc(), b"ab", 2, &[3])?;
    let mut reader = LineReader::new(rt.alloc(), &mut source)?;
    note(&mut reader, rt.alloc(), 4, &mut notes)?;
    note(&mut reader, rt.alloc(), 4, &mut notes)?;
    note(&mut reader, rt.alloc(), 4, &mut notes)?;
    assert!(rt; notes.as_slice() == b"ab|(end)|(end)|".as_slice());
    Ok(())
}

#[test]
fn an_endless_source_fills_the_buffer(rt: HostRuntime) {
    let mut source = EndlessSource { byte: 7 };
    let mut buffer = [0; 5];
    assert!(rt; source.take(&mut buffer) == Take::Got(5));
    assert_eq!(rt; buffer, [7; 5]);
}

#[test]
fn puts_what_there_is_room_for(rt: HostRuntime) -> Result<(), Fail> {
    let rows: [(usize, &[u64], Result<(), WriteFault>, &str); 3] = [
        (6, &[], Ok(()), "abcdef"),
        (4, &[], Err(WriteFault), "abcd"),
        (6, &[1], Err(WriteFault), ""),
    ];
    for (room, failing, result, front) in rows {
        let mut sink = MemSink::new(rt.alloc(), room, failing)?;
        assert!(rt; put_all(&mut sink, b"abcdef") == result, "room for {room}");
        assert!(rt; sink.taken() == front.as_bytes(), "room for {room}");
    }
    Ok(())
}

#[test]
fn a_disk_reads_back(rt: HostRuntime) -> Result<(), Fail> {
    let mut disk = SureDisk::new(rt.alloc(), b"abcd")?;
    disk.write_at(3, b"xyz")?;
    disk.write_at(0, b"A")?;
    disk.sync()?;
    assert_eq!(rt; disk.size()?, 6);
    let mut image = [0; 6];
    disk.read(0, &mut image)?;
    assert_eq!(rt; image, *b"Abcxyz");
    Ok(())
}

#[test]
fn lists_grow_and_are_cleared(rt: HostRuntime) -> Result<(), Fail> {
    let mut bytes = Bytes::of(rt.alloc(), b"ab")?;
    bytes.append(b"c")?;
    assert!(rt; bytes.as_slice() == b"abc".as_slice());
    bytes.clear();
    assert!(rt; bytes.as_slice().is_empty());
    let mut ids = Ids::of(rt.alloc(), &[7])?;
    ids.append(&[4294967295, 0])?;
    assert!(rt; ids.as_slice() == [7, 4294967295, 0].as_slice());
    ids.clear();
    assert!(rt; ids.as_slice().is_empty());
    Ok(())
}

#[test]
fn errors_in_words(rt: HostRuntime) -> Result<(), Fail> {
    for (e, text) in [
        (EdgeError::ReadFault, "read fault"),
        (EdgeError::InputLimit, "input limit"),
        (EdgeError::Memory, "out of memory"),
    ] {
        assert!(rt; format!(in rt.alloc(); "{e}")?.as_str() == text);
    }
    for (e, text) in [
        (DiskError::Failed, "disk fault"),
        (DiskError::Memory, "out of memory"),
    ] {
        assert!(rt; format!(in rt.alloc(); "{e}")?.as_str() == text);
    }
    let e = Memory;
    assert!(rt; format!(in rt.alloc(); "{e}")?.as_str() == "out of memory");
    let e = WriteFault;
    assert!(rt; format!(in rt.alloc(); "{e}")?.as_str() == "write fault");
    Ok(())
}

/// Writes down whether a call succeeded.
fn mark(marks: &mut Bytes, ok: bool) -> Result<(), Fail> {
    Ok(marks.append(if ok { b"+" } else { b"-" })?)
}

/// Makes six calls, and writes down which of them succeed.
fn marks_of(alloc: Global, disk: &mut MemDisk) -> Result<Bytes, Fail>
    requires { 4 ≤ length disk.old.held.image }
{
    let mut marks = Bytes::of(alloc, &[])?;
    mark(&mut marks, disk.size().is_ok())?;
    mark(&mut marks, disk.write_at(3, b"xyz").is_ok())?;
    mark(&mut marks, disk.read(0, &mut [0; 4]).is_ok())?;
    mark(&mut marks, disk.sync().is_ok())?;
    mark(&mut marks, disk.write_at(4, b"!").is_ok())?;
    mark(&mut marks, disk.size().is_ok())?;
    Ok(marks)
}

#[test]
fn a_disk_fails_where_it_was_told_to(rt: HostRuntime) -> Result<(), Fail> {
    let rows: [(&[u64], Option<u64>, usize, usize, &str, usize, &str); 6] = [
        (&[], None, 6, 4, "++++++", 6, "abcx!z"),
        (&[2, 4], None, 6, 4, "+-+-++", 6, "abcd!"),
        (&[], Some(3), 6, 4, "+++---", 3, "abcxyz"),
        (&[], None, 4, 4, "++++--", 4, "abcxyz"),
        (&[], None, 6, 2, "+-++++", 5, "abcd!"),
        (&[2], None, 6, 2, "+--+++", 5, "abcd!"),
    ];
    for (failing, stop, calls, bytes, marks, made, image) in rows {
        let mut disk = MemDisk::new(rt.alloc(), b"abcd", failing, stop, calls, bytes)?;
        let answers = marks_of(rt.alloc(), &mut disk)?;
        assert!(rt; answers.as_slice() == marks.as_bytes(), "{marks}");
        assert!(rt; disk.calls().len() == made, "{marks}");
        assert!(rt; disk.image() == image.as_bytes(), "{marks}");
    }
    Ok(())
}

#[test]
fn a_disk_shows_what_a_crash_may_leave(rt: HostRuntime) -> Result<(), Fail> {
    let mut disk = MemDisk::new(rt.alloc(), b"abcd", &[2], None, 3, 4)?;
    disk.write_at(3, b"xyz")?;
    assert!(rt; disk.write_at(6, b"!") == Err(DiskError::Failed));
    for (choice, image) in [
        (Choice::KeepAll, "abcxyz"),
        (Choice::DropAll, "abcd"),
        (Choice::Fill(b'.'), "abc...."),
    ] {
        let left = disk.after_crash(rt.alloc(), choice)?;
        assert!(rt; left.as_slice() == image.as_bytes(), "{image}");
    }
    disk.sync()?;
    for choice in [Choice::KeepAll, Choice::DropAll, Choice::Fill(b'.')] {
        let left = disk.after_crash(rt.alloc(), choice)?;
        assert!(rt; left.as_slice() == b"abcxyz".as_slice());
    }
    assert!(rt; disk.written() == b"xyz!".as_slice());
    let first = DiskCall::Write { at: 3, len: 3 };
    let second = DiskCall::Write { at: 6, len: 1 };
    assert!(rt; disk.calls() == [first, second, DiskCall::Sync].as_slice());
    Ok(())
}
