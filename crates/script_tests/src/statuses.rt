//! Words that ask for no session, the files that words name, and the number and the line of each status.
use crate::plays::{owned, play_over};
use page_laws::Rule;
use spb_edge::{Bytes, MemSink, MemSource, Memory};
use spb_top::{FileUse, Status, code, file_of, status_line};
use std::alloc::Global;
use std::test::Fail;

/// Words that ask for no session.
const OTHER_WORDS: [&[&str]; 22] = [
    &[],
    &["mem"],
    &["mem", "l1"],
    &["mem", "linf", "2", "0"],
    &["mem", "linf", "31", "255"],
    &["mem", "hamming", "121"],
    &["mem", "hamming", "3", "9"],
    &["mem", "hamming", "3", "0", "0"],
    &["mem", "sets", "100", "5", "08"],
    &["mem", "sets", "100", "31"],
    &["mem", "sets", "", "5"],
    &["mem", "sets", "-1", "5"],
    &["mem", "jaccard", "100", "5"],
    &["mem", "l1", "31", "255"],
    &["mem", "l1", "2", "0255"],
    &["mem", "l1", "2"],
    &["mem", "l1", "2", "255", "9"],
    &["mem", "l1", "2", "255", "2", "2"],
    &["mem", "l1", "2", "255", "02"],
    &["--help"],
    &["help"],
    &["run"],
];

/// Whether the words are refused by the program and by the plain one, and nothing is written.
fn are_refused(alloc: Global, texts: &[&str]) -> Result<bool, Fail> {
    let mut input = MemSource::new(alloc, b"count 0\n", 8, &[])?;
    let mut output = MemSink::new(alloc, 64, &[])?;
    let status = play_over(alloc, texts, &mut input, &mut output)?;
    let is_plain_refusal = plain_store::play(alloc, texts, b"count 0\n")?.is_none();
    Ok(status == Status::Usage && output.taken().is_empty() && is_plain_refusal)
}

/// How many of the words that ask for no session are refused.
fn count_refused(alloc: Global) -> Result<usize, Fail> {
    let mut count = 0usize;
    for texts in OTHER_WORDS {
        count = count.saturating_add(usize::from(are_refused(alloc, texts)?));
    }
    Ok(count)
}

#[test]
fn other_words_are_usage(rt: HostRuntime) -> Result<(), Fail> {
    assert_eq!(rt; count_refused(rt.alloc())?, OTHER_WORDS.len());
    Ok(())
}

/// Words, and the file that they name: whether it is a new one, and its name.
const FILES: [(&[&str], Option<(bool, &str)>); 25] = [
    (
        &["make", "a", "z", "1", "1", "l1", "2", "255"],
        Some((true, "a")),
    ),
    (
        &["make", "a", "hilbert", "8", "65536", "linf", "2", "255"],
        Some((true, "a")),
    ),
    (
        &["make", "a", "z", "2", "100", "hamming", "120"],
        Some((true, "a")),
    ),
    (
        &["make", "a", "z", "2", "100", "sets", "100", "5"],
        Some((true, "a")),
    ),
    (&["make", "a", "z", "0", "100", "l1", "2", "255"], None),
    (&["make", "a", "z", "9", "100", "l1", "2", "255"], None),
    (&["make", "a", "z", "2", "0", "l1", "2", "255"], None),
    (&["make", "a", "z", "2", "65537", "l1", "2", "255"], None),
    (&["make", "a", "Z", "2", "100", "l1", "2", "255"], None),
    (&["make", "a", "z", "2", "100", "l1", "2", "255", "2"], None),
    (&["make", "a", "z", "2", "100", "l1", "2"], None),
    (&["make", "", "z", "2", "100", "l1", "2", "255"], None),
    (&["run", "a.spb"], Some((false, "a.spb"))),
    (&["run", "help"], Some((false, "help"))),
    (&["run", "--help"], None),
    (&["run"], None),
    (&["run", "a", "b"], None),
    (&["check", "mem"], Some((false, "mem"))),
    (&["check", "-"], None),
    (
        &["trial", "t", "18446744073709551615", "65536"],
        Some((true, "t")),
    ),
    (&["trial", "t", "18446744073709551616", "1"], None),
    (&["trial", "t", "0", "0"], None),
    (&["trial", "t", "0", "65537"], None),
    (&["help"], None),
    (&["mem", "l1", "2", "255"], None),
];

/// Whether the words name this file.
fn names_file(alloc: Global, texts: &[&str], want: Option<(bool, &str)>) -> Result<bool, Fail> {
    let words = owned(alloc, texts)?;
    let named = match file_of(alloc, words.as_slice())? {
        FileUse::None => want.is_none(),
        FileUse::Old(name) => is_file(want, false, name.as_slice()),
        FileUse::New(name) => is_file(want, true, name.as_slice()),
    };
    Ok(named)
}

/// Whether a file was wanted, and is this one.
fn is_file(want: Option<(bool, &str)>, is_new: bool, name: &[u8]) -> bool {
    match want {
        Some((new, text)) => new == is_new && text.as_bytes() == name,
        None => false,
    }
}

#[test]
fn words_name_their_files(rt: HostRuntime) -> Result<(), Fail> {
    for (texts, want) in FILES {
        assert!(rt; names_file(rt.alloc(), texts, want)?);
    }
    Ok(())
}

/// Each status with its number and its line.
const STATUSES: [(Status, u8, &str); 13] = [
    (Status::Done, 0, ""),
    (Status::Usage, 2, "spb: usage\n"),
    (Status::NoMemory, 3, "spb: no memory\n"),
    (Status::ReadFault, 4, "spb: read fault\n"),
    (Status::WriteFault, 5, "spb: write fault\n"),
    (Status::DiskFault, 6, "spb: disk fault\n"),
    (Status::NotStore, 7, "spb: not a store\n"),
    (
        Status::Damaged {
            page: 85,
            rule: Rule::Slot,
        },
        8,
        "spb: damaged page 85 rule slot\n",
    ),
    (Status::InputLimit, 9, "spb: input limit\n"),
    (Status::TooWide, 10, "spb: too wide\n"),
    (Status::NoSample, 11, "spb: no sample\n"),
    (
        Status::BadSample { line: 4097 },
        12,
        "spb: bad sample line 4097\n",
    ),
    (Status::NotEmpty, 13, "spb: not empty\n"),
];

/// Whether the status has the number and the line.
fn has_number_and_line(
    alloc: Global,
    status: Status,
    number: u8,
    line: &str,
) -> Result<bool, Memory> {
    let mut text = Bytes::of(alloc, &[])?;
    status_line(&status, &mut text)?;
    Ok(code(&status) == number && text.as_slice() == line.as_bytes())
}

#[test]
fn statuses_have_numbers_and_lines(rt: HostRuntime) -> Result<(), Fail> {
    for (status, number, line) in STATUSES {
        assert!(rt; has_number_and_line(rt.alloc(), status, number, line)?);
    }
    Ok(())
}
