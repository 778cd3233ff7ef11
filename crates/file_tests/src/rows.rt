//! Worked scripts over stores in files, and what they are answered.
use crate::plays::{
    CHECK, MADE, RUN, Row, SAMPLES, first_wrong, first_wrong_on_disks, five_points_on_a_disk, is_so,
};
use spb_edge::SureDisk;
use spb_top::Status;
use std::alloc::{AllocError, Global};
use std::test::Fail;

/// Runs over the store of five points, one after the other.
const OVER_FIVE_POINTS: [Row; 12] = [
    Row {
        words: &CHECK,
        script: "",
        status: Status::Done,
        text: "sound 5\n",
    },
    Row {
        words: &RUN,
        script: "",
        status: Status::Done,
        text: "",
    },
    // a last line without LF
    Row {
        words: &RUN,
        script: "count 0",
        status: Status::Done,
        text: "count 5\n",
    },
    // object 1 is sure, 2 and 3 are measured, 4 and 5 don't meet
    Row {
        words: &RUN,
        script: "range 0 8 3,0\nrange 1 8 3,0\nrange 0 4294967295 3,0\n",
        status: Status::Done,
        text: "range 3 evals 4 sure 1: 1 2 3\nrange 0 evals 2 sure 0:\nrange 5 evals 2 sure 5: 1 2 3 4 5\n",
    },
    Row {
        words: &RUN,
        script: "add 0 1 9,9\ndrop 0 77\nget 0 2\ncount 0\nget 3 2\n",
        status: Status::Done,
        text: "exists\nabsent\nobject 3,4\ncount 5\nabsent\n",
    },
    Row {
        words: &RUN,
        script: "add 0 6 256,0\nadd 4 6 1,1\nadd 0 06 1,1\nrange 0 -1 3,0\nnear 0 0 3,0\nnear 0 65537 3,0\n\
             \nfetch 0 1\nadd 0 1\nadd 9 06 x\n",
        status: Status::Done,
        text: "bad object\nbad collection\nbad id\nbad number\nbad number\nbad number\n\
             bad command\nbad command\nbad command\nbad collection\n",
    },
    // a store in a file takes no samples
    Row {
        words: &RUN,
        script: "sample 1,1\nsample 256,0\n",
        status: Status::Done,
        text: "late\nbad object\n",
    },
    Row {
        words: &RUN,
        script: "near 0 2 3,0\n",
        status: Status::Done,
        text: "near 2 evals 4: 1@3 2@4\n",
    },
    // two with one bound and one distance
    Row {
        words: &RUN,
        script: "add 1 8 1,0\nadd 1 7 0,1\nnear 1 1 0,0\n",
        status: Status::Done,
        text: "ok\nok\nnear 1 evals 3: 7@1\n",
    },
    Row {
        words: &RUN,
        script: "near 0 9 3,0\n",
        status: Status::Done,
        text: "near 5 evals 7: 1@3 2@4 3@7 4@197 5@252\n",
    },
    Row {
        words: &CHECK,
        script: "",
        status: Status::Done,
        text: "sound 7\n",
    },
    Row {
        words: &RUN,
        script: "drop 1 8\ndrop 1 7\nget 1 7\ncount 1\ncount 0\n",
        status: Status::Done,
        text: "ok\nok\nabsent\ncount 0\ncount 5\n",
    },
];

/// Stores, each with the runs over it from its making on.
const STORES: [&[Row]; 8] = [
    // a pair that is sure, and one that is measured
    &[
        MADE,
        Row {
            words: &RUN,
            script: "add 0 1 0,0\nadd 0 2 3,4\nadd 1 1 1,1\nadd 1 9 3,5\njoin 0 1 3\n",
            status: Status::Done,
            text: "ok\nok\nok\nok\njoin 2 evals 1 sure 1: 1-1 2-9\n",
        },
    ],
    // twins
    &[
        MADE,
        Row {
            words: &RUN,
            script: "add 0 1 7,7\nadd 0 2 7,7\njoin 0 0 0\n",
            status: Status::Done,
            text: "ok\nok\njoin 1 evals 1 sure 0: 1-2\n",
        },
    ],
    // no more than three objects
    &[
        Row {
            words: &["make", "c.spb", "z", "2", "3", "l1", "2", "255"],
            script: SAMPLES,
            status: Status::Done,
            text: "made pivots 2 evals 2\n",
        },
        Row {
            words: &RUN,
            script: "add 0 1 0,0\nadd 0 2 3,4\nadd 1 3 10,0\nadd 0 4 1,1\nadd 0 1 5,5\n",
            status: Status::Done,
            text: "ok\nok\nok\nfull\nexists\n",
        },
        Row {
            words: &RUN,
            script: "add 2 4 1,1\ndrop 0 2\nadd 0 4 1,1\nadd 0 2 3,4\n",
            status: Status::Done,
            text: "full\nok\nok\nfull\n",
        },
        Row {
            words: &CHECK,
            script: "",
            status: Status::Done,
            text: "sound 3\n",
        },
    ],
    // no joins over the Hilbert curve
    &[
        Row {
            words: &["make", "d.spb", "hilbert", "2", "100", "l1", "2", "255"],
            script: SAMPLES,
            status: Status::Done,
            text: "made pivots 2 evals 2\n",
        },
        Row {
            words: &RUN,
            script: "add 0 1 0,0\nadd 0 2 3,4\nadd 0 3 10,0\nadd 0 4 100,100\nadd 0 5 255,0\n\
                 join 0 1 3\njoin 0 1 x\nrange 0 8 3,0\n",
            status: Status::Done,
            text: "ok\nok\nok\nok\nok\ncurve\nbad number\nrange 3 evals 4 sure 1: 1 2 3\n",
        },
    ],
    // a bound that is the distance of the last rank, under a lesser id
    &[
        Row {
            words: &["make", "w.spb", "z", "1", "100", "l1", "2", "255"],
            script: "sample 0,0\n",
            status: Status::Done,
            text: "made pivots 1 evals 0\n",
        },
        Row {
            words: &RUN,
            script: "add 0 9 0,2\nadd 0 3 6,0\nnear 0 1 2,0\n",
            status: Status::Done,
            text: "ok\nok\nnear 1 evals 3: 3@4\n",
        },
    ],
    // the other kinds of objects
    &[
        Row {
            words: &["make", "e.spb", "hilbert", "1", "9", "linf", "2", "255"],
            script: "sample 0,0\n",
            status: Status::Done,
            text: "made pivots 1 evals 0\n",
        },
        Row {
            words: &RUN,
            script: "add 0 1 3,4\nrange 0 4 0,0\nrange 0 3 0,0\n",
            status: Status::Done,
            text: "ok\nrange 1 evals 1 sure 1: 1\nrange 0 evals 1 sure 0:\n",
        },
        Row {
            words: &CHECK,
            script: "",
            status: Status::Done,
            text: "sound 1\n",
        },
    ],
    &[
        Row {
            words: &["make", "f.spb", "z", "1", "9", "hamming", "3"],
            script: "sample 000000\n",
            status: Status::Done,
            text: "made pivots 1 evals 0\n",
        },
        Row {
            words: &RUN,
            script: "add 0 1 616263\nrange 0 1 616264\nadd 0 2 61626A\n",
            status: Status::Done,
            text: "ok\nrange 1 evals 2 sure 0: 1\nbad object\n",
        },
        Row {
            words: &CHECK,
            script: "",
            status: Status::Done,
            text: "sound 1\n",
        },
    ],
    &[
        Row {
            words: &["make", "g.spb", "z", "1", "9", "sets", "100", "5"],
            script: "sample -\n",
            status: Status::Done,
            text: "made pivots 1 evals 0\n",
        },
        Row {
            words: &RUN,
            script: "add 0 1 1,2,3\nadd 0 2 2,3,4\nnear 0 1 2,3\nadd 0 3 -\nget 0 3\nadd 0 4 5,5\n",
            status: Status::Done,
            text: "ok\nok\nnear 1 evals 2: 1@1\nok\nobject -\nbad object\n",
        },
        Row {
            words: &CHECK,
            script: "",
            status: Status::Done,
            text: "sound 3\n",
        },
    ],
];

#[test]
fn worked_rows_on_files(rt: HostRuntime) -> Result<(), Fail> {
    let mut disk = five_points_on_a_disk(rt.alloc())?;
    assert_eq!(rt;
        first_wrong(rt.alloc(), &OVER_FIVE_POINTS, &mut disk)?,
        None
    );
    assert_eq!(rt; first_wrong_on_disks(rt.alloc(), &STORES)?, None);
    Ok(())
}

/// A line of 16,384 bytes and one with a byte more.
fn long_lines(alloc: Global) -> Result<Vec<u8>, AllocError> {
    let mut script = vec![in alloc; b'a'; 16_384 + 1 + 16_385]?;
    script[16_384] = b'\n';
    Ok(script)
}

/// Forty equal objects, and a question for the pairs of them.
fn twins(alloc: Global) -> Result<String, AllocError> {
    let mut script = String::new(alloc);
    for id in 0..40u32 {
        script.push_str(&format!(in alloc; "add 0 {id} 7,7\n")?)?;
    }
    script.push_str("join 0 0 0\n")?;
    Ok(script)
}

/// Appends the pairs of an id with those above it, up to 39, to the text.
fn append_pairs(alloc: Global, id: u32, text: &mut String) -> Result<(), AllocError> {
    for other in 0..40u32 {
        if id < other {
            text.push_str(&format!(in alloc; " {id}-{other}")?)?;
        }
    }
    Ok(())
}

/// What the forty equal objects are answered, and all pairs of them.
fn pairs_of_twins(alloc: Global) -> Result<String, AllocError> {
    let mut text = String::new(alloc);
    for _ in 0..40 {
        text.push_str("ok\n")?;
    }
    text.push_str("join 780 evals 780 sure 0:")?;
    for id in 0..40u32 {
        append_pairs(alloc, id, &mut text)?;
    }
    text.push_str("\n")?;
    Ok(text)
}

#[test]
fn long_lines_and_many_twins(rt: HostRuntime) -> Result<(), Fail> {
    let mut disk = five_points_on_a_disk(rt.alloc())?;
    let script = long_lines(rt.alloc())?;
    let text = b"bad command\nlong\n";
    assert!(rt; is_so(rt.alloc(), &RUN, &script, &mut disk, Status::Done, text)?);
    let mut disk = SureDisk::new(rt.alloc(), &[])?;
    assert_eq!(rt; first_wrong(rt.alloc(), &[MADE], &mut disk)?, None);
    let (script, text) = (twins(rt.alloc())?, pairs_of_twins(rt.alloc())?);
    assert!(rt;
        is_so(
            rt.alloc(),
            &RUN,
            script.as_bytes(),
            &mut disk,
            Status::Done,
            text.as_bytes()
        )?
    );
    Ok(())
}
