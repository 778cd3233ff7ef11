//! Words, inputs and disks with which no store is made or opened.
use crate::plays::{CHECK, MADE, MAKE, RUN, Row, SAMPLES, first_wrong_on_disks, is_so};
use spb_edge::SureDisk;
use spb_top::Status;
use std::alloc::Global;
use std::test::Fail;

/// Words whose cells would have keys of 72 bits.
const WIDE: [&str; 8] = ["make", "x.spb", "z", "8", "100", "l1", "2", "255"];

/// Words with which a trial is made.
const TRIAL: [&str; 4] = ["trial", "t.spb", "0", "1"];

/// Disks, each with the runs over it from an empty one on.
const DISKS: [&[Row]; 3] = [
    // of two causes the first is named, and what is refused leaves the disk as it was
    &[
        Row {
            words: &WIDE,
            script: "",
            status: Status::TooWide,
            text: "",
        },
        Row {
            words: &["make", "x.spb", "z", "7", "100", "l1", "2", "255"],
            script: SAMPLES,
            status: Status::Done,
            text: "made pivots 3 evals 3\n",
        },
        Row {
            words: &WIDE,
            script: SAMPLES,
            status: Status::TooWide,
            text: "",
        },
        Row {
            words: &MAKE,
            script: SAMPLES,
            status: Status::NotEmpty,
            text: "",
        },
        Row {
            words: &MAKE,
            script: "",
            status: Status::NotEmpty,
            text: "",
        },
        Row {
            words: &TRIAL,
            script: "",
            status: Status::NotEmpty,
            text: "",
        },
        Row {
            words: &CHECK,
            script: "",
            status: Status::Done,
            text: "sound 0\n",
        },
    ],
    // inputs without a sample, or with a line that is none
    &[
        Row {
            words: &MAKE,
            script: "",
            status: Status::NoSample,
            text: "",
        },
        Row {
            words: &MAKE,
            script: "sample 0,0\nsample 256,0\n",
            status: Status::BadSample { line: 2 },
            text: "",
        },
        Row {
            words: &MAKE,
            script: "sample 0,0\nsample 1,1\n\nsample 2,2\n",
            status: Status::BadSample { line: 3 },
            text: "",
        },
        Row {
            words: &MAKE,
            script: "count 0\n",
            status: Status::BadSample { line: 1 },
            text: "",
        },
        Row {
            words: &RUN,
            script: "count 0\n",
            status: Status::NotStore,
            text: "",
        },
        Row {
            words: &CHECK,
            script: "",
            status: Status::NotStore,
            text: "",
        },
        MADE,
    ],
    // colour histograms
    &[
        Row {
            words: &["make", "h.spb", "hilbert", "5", "20000", "l1", "16", "255"],
            script: "sample 255,0,0,0,0,0,0,0,0,0,0,0,0,0,0,0\n\
                 sample 0,255,0,0,0,0,0,0,0,0,0,0,0,0,0,0\n\
                 sample 9,9,9,9,9,9,9,9,9,9,9,9,9,9,9,9\n\
                 sample 1,2,3,4,5,6,7,8,9,10,11,12,13,14,15,16\n\
                 sample 0,0,0,0,0,0,0,0,0,0,0,0,0,0,0,255\n",
            status: Status::Done,
            text: "made pivots 5 evals 10\n",
        },
        Row {
            words: &CHECK,
            script: "",
            status: Status::Done,
            text: "sound 0\n",
        },
    ],
];

/// Words that no program takes.
const USAGE: [&[&str]; 9] = [
    &[],
    &["run"],
    &["check", "a.spb", "b.spb"],
    &["mem", "l1", "31", "255"],
    &["make", "x.spb", "z", "0", "100", "l1", "2", "255"],
    &["make", "x.spb", "z", "9", "100", "l1", "2", "255"],
    &["trial", "t.spb", "0", "0"],
    &["trial", "t.spb", "0", "65537"],
    &["trial", "t.spb", "18446744073709551616", "1"],
];

/// Whether the words are no program's, over an empty disk.
fn is_usage(alloc: Global, texts: &[&str]) -> Result<bool, Fail> {
    let mut disk = SureDisk::new(alloc, &[])?;
    let script = SAMPLES.as_bytes();
    is_so(alloc, texts, script, &mut disk, Status::Usage, b"")
}

#[test]
fn words_and_disks_that_are_refused(rt: HostRuntime) -> Result<(), Fail> {
    assert_eq!(rt; first_wrong_on_disks(rt.alloc(), &DISKS)?, None);
    for texts in USAGE {
        assert!(rt; is_usage(rt.alloc(), texts)?, "{texts:?}");
    }
    Ok(())
}
