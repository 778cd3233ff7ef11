use answer_lists::{Ids, Pairs, Ranks};
use cmd_grammar::{Command, LineError, Reply, What, read_command, write_reply};
use metrics_builtin::Space;
use spb_edge::Bytes;
use std::test::Fail;

/// The plane of points with components up to 255.
const PLANE: Space = Space::L1 { dim: 2, most: 255 };

/// The parts of the command, which each test of a line compares.
fn parts(command: &Command) -> (&'static str, u32, u32, Option<&[u8]>) {
    match command {
        Command::Sample { object } => ("sample", 0, 0, Some(object.as_slice())),
        Command::Add { c, id, object } => ("add", u32::from(*c), *id, Some(object.as_slice())),
        Command::Discard { c, id } => ("drop", u32::from(*c), *id, None),
        Command::Get { c, id } => ("get", u32::from(*c), *id, None),
        Command::Count { c } => ("count", u32::from(*c), 0, None),
        Command::Range { c, r, object } => ("range", u32::from(*c), *r, Some(object.as_slice())),
        Command::Near { c, k, object } => ("near", u32::from(*c), *k, Some(object.as_slice())),
        Command::Join { c, d, r } => ("join", u32::from(*c) * 10 + u32::from(*d), *r, None),
    }
}

#[test]
fn each_command(rt: HostRuntime) -> Result<(), Fail> {
    let point: &[u8] = &[0, 0, 0, 1, 0, 0, 0, 2];
    for (line, want) in [
        ("sample 1,2", ("sample", 0, 0, Some(point))),
        ("add 0 7 1,2", ("add", 0, 7, Some(point))),
        ("drop 1 0", ("drop", 1, 0, None)),
        ("get 2 4294967295", ("get", 2, 4294967295, None)),
        ("count 3", ("count", 3, 0, None)),
        (
            "range 3 4294967295 1,2",
            ("range", 3, 4294967295, Some(point)),
        ),
        ("near 0 65536 1,2", ("near", 0, 65536, Some(point))),
        ("join 1 2 30", ("join", 12, 30, None)),
    ] {
        let command = read_command(rt.alloc(), &PLANE, line.as_bytes())?;
        let (name, first, second, object) = parts(&command);
        let (want_name, want_first, want_second, want_object) = want;
        assert!(rt; name == want_name, "{line}");
        assert_eq!(rt; (first, second), (want_first, want_second), "{line}");
        assert!(rt; object == want_object, "{line}");
    }
    Ok(())
}

#[test]
fn lines_that_are_no_commands(rt: HostRuntime) {
    for (line, failed) in [
        ("", What::Command),
        ("add 0 1", What::Command),
        ("fetch 0 1", What::Command),
        ("add 4 6 1,1", What::Collection),
        ("add 0 06 1,1", What::Id),
        ("add 0 4294967296 1,1", What::Id),
        ("range 0 -1 3,0", What::Number),
        ("add 0 6 256,0", What::Object),
        ("add 9 06 x", What::Collection),
        ("near 0 0 1,1", What::Number),
        ("near 0 65537 1,1", What::Number),
        ("join 0 4 x", What::Collection),
        ("join 0 3 x", What::Number),
        ("count", What::Command),
        ("count 0 0", What::Command),
        ("drop 0", What::Command),
        ("sample", What::Command),
        ("sample 1", What::Object),
        ("add  0 1 0,0", What::Command),
        ("ADD 0 1 0,0", What::Command),
        ("add 0 1 0,0 ", What::Command),
    ] {
        match read_command(rt.alloc(), &PLANE, line.as_bytes()) {
            Err(e) => assert!(rt; e == LineError::Bad(failed), "{line}"),
            Ok(_) => panic!(rt; "{line}"),
        }
    }
}

#[test]
fn replies_as_lines(rt: HostRuntime) -> Result<(), Fail> {
    let mut text = Bytes::of(rt.alloc(), b"")?;
    write_reply(&PLANE, &Reply::Done, &mut text)?;
    write_reply(&PLANE, &Reply::Exists, &mut text)?;
    write_reply(&PLANE, &Reply::Absent, &mut text)?;
    write_reply(&PLANE, &Reply::Full, &mut text)?;
    write_reply(&PLANE, &Reply::Curve, &mut text)?;
    write_reply(&PLANE, &Reply::Late, &mut text)?;
    write_reply(&PLANE, &Reply::Long, &mut text)?;
    write_reply(&PLANE, &Reply::Count(4294967295), &mut text)?;
    for failed in [
        What::Command,
        What::Collection,
        What::Id,
        What::Number,
        What::Object,
    ] {
        write_reply(&PLANE, &Reply::Bad(failed), &mut text)?;
    }
    let want =
        b"ok\nexists\nabsent\nfull\ncurve\nlate\nlong\ncount 4294967295\nbad command\nbad collection\nbad id\nbad number\nbad object\n";
    assert!(rt; text.as_slice() == want.as_slice());
    Ok(())
}

#[test]
fn answers_to_ranges(rt: HostRuntime) -> Result<(), Fail> {
    let mut text = Bytes::of(rt.alloc(), b"")?;
    let some = Reply::Range {
        ids: Ids::of(rt.alloc(), &[1, 2, 3])?,
        evals: 4,
        sure: 1,
    };
    write_reply(&PLANE, &some, &mut text)?;
    let none = Reply::Range {
        ids: Ids::of(rt.alloc(), &[])?,
        evals: 1,
        sure: 0,
    };
    write_reply(&PLANE, &none, &mut text)?;
    let greatest = Reply::Range {
        ids: Ids::of(rt.alloc(), &[4294967295])?,
        evals: 1,
        sure: 1,
    };
    write_reply(&PLANE, &greatest, &mut text)?;
    let want =
        b"range 3 evals 4 sure 1: 1 2 3\nrange 0 evals 1 sure 0:\nrange 1 evals 1 sure 1: 4294967295\n";
    assert!(rt; text.as_slice() == want.as_slice());
    Ok(())
}

#[test]
fn answers_with_pairs(rt: HostRuntime) -> Result<(), Fail> {
    let mut text = Bytes::of(rt.alloc(), b"")?;
    let near = Reply::Near {
        rows: Ranks::of(rt.alloc(), &[(3, 1), (4, 2)])?,
        evals: 4,
    };
    write_reply(&PLANE, &near, &mut text)?;
    let join = Reply::Join {
        pairs: Pairs::of(rt.alloc(), &[(1, 1), (2, 9)])?,
        evals: 1,
        sure: 1,
    };
    write_reply(&PLANE, &join, &mut text)?;
    let want = b"near 2 evals 4: 1@3 2@4\njoin 2 evals 1 sure 1: 1-1 2-9\n";
    assert!(rt; text.as_slice() == want.as_slice());
    Ok(())
}

#[test]
fn errors_in_words(rt: HostRuntime) -> Result<(), Fail> {
    for (e, text) in [
        (LineError::Bad(What::Id), "bad line"),
        (LineError::Memory, "out of memory"),
    ] {
        assert!(rt; format!(in rt.alloc(); "{e}")?.as_str() == text);
    }
    Ok(())
}
