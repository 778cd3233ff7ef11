//! Worked scripts, and what they are answered.
use crate::plays::{PLANE, are_answers};
use std::alloc::Global;
use std::test::Fail;

/// Words of the program, a script and what it is answered.
struct Row {
    words: &'static [&'static str],
    script: &'static str,
    text: &'static str,
}

/// The words of vectors of two components, with two pivots.
const PIVOTED: [&str; 5] = ["mem", "l1", "2", "255", "2"];

const ROWS: [Row; 25] = [
    Row {
        words: &PLANE,
        script: "add 0 1 0,0\nrange 0 0 0,0\n",
        text: "ok\nrange 1 evals 1 sure 0: 1\n",
    },
    Row {
        words: &PLANE,
        script: "",
        text: "",
    },
    Row {
        words: &PLANE,
        script: "count 0",
        text: "count 0\n",
    },
    Row {
        words: &PLANE,
        script: "add 0 1 0,0\nadd 0 1 5,5\nget 0 1\nrange 0 5 3,4\n",
        text: "ok\nexists\nobject 0,0\nrange 0 evals 1 sure 0:\n",
    },
    Row {
        words: &PLANE,
        script: "add 3 7 0,1\nadd 3 5 9,9\nadd 2 5 0,0\nadd 3 4294967295 1,0\nrange 3 1 0,0\n",
        text: "ok\nok\nok\nok\nrange 2 evals 3 sure 0: 7 4294967295\n",
    },
    // refusals
    Row {
        words: &PLANE,
        script: "add 0 6 256,0\nadd 4 6 1,1\nadd 0 06 1,1\nrange 0 -1 3,0\nnear 0 0 3,0\nnear 0 65537 3,0\n",
        text: "bad object\nbad collection\nbad id\nbad number\nbad number\nbad number\n",
    },
    Row {
        words: &PLANE,
        script: "\nfetch 0 1\nadd 0 1\nadd 9 06 x\nadd 0 1 0,0\r\n\0\nadd 0 1 \u{e9}\n",
        text: "bad command\nbad command\nbad command\nbad collection\nbad object\nbad command\nbad object\n",
    },
    // of two faults the first is named
    Row {
        words: &PLANE,
        script: "add 0 1 0,0\ncount 0\n\
         fetch 9 01 x\nadd 9 01\nadd 9 01 0,0\nadd 9 1 x\nadd 0 01 x\ndrop 9 01\nget 9 01\nrange 9 01 0,0\nrange 0 01 x\n\
         near 9 0 0,0\nnear 0 0 x\njoin 9 9 01\njoin 0 9 01\nadd 0 1 x\n",
        text: "ok\ncount 1\n\
         bad command\nbad command\nbad collection\nbad collection\nbad id\nbad collection\nbad collection\nbad collection\nbad number\n\
         bad collection\nbad number\nbad collection\nbad collection\nbad object\n",
    },
    // objects come and go
    Row {
        words: &PLANE,
        script: "add 0 2 3,4\nadd 1 2 5,5\ndrop 0 77\nget 0 2\ncount 0\nget 3 2\ndrop 0 2\nget 0 2\ncount 0\ncount 1\n",
        text: "ok\nok\nabsent\nobject 3,4\ncount 1\nabsent\nok\nabsent\ncount 0\ncount 1\n",
    },
    // samples
    Row {
        words: &PLANE,
        script: "sample 0,0\nfetch\nsample 9,9\ncount 0\nsample 1,1\nsample 256,0\n",
        text: "ok\nbad command\nok\ncount 0\nlate\nbad object\n",
    },
    // the nearest, ties by the lesser id
    Row {
        words: &PLANE,
        script: "add 1 8 1,0\nadd 1 7 0,1\nnear 1 1 0,0\nnear 1 5 0,0\nnear 0 3 0,0\n",
        text: "ok\nok\nnear 1 evals 2: 7@1\nnear 2 evals 2: 7@1 8@1\nnear 0 evals 0:\n",
    },
    // it stops at the last that is equal to the query
    Row {
        words: &PLANE,
        script: "add 0 1 9,9\nadd 0 2 3,4\nadd 0 3 3,4\nadd 0 4 3,4\nnear 0 2 3,4\nnear 0 3 3,4\nnear 0 4 3,4\n",
        text: "ok\nok\nok\nok\nnear 2 evals 3: 2@0 3@0\nnear 3 evals 4: 2@0 3@0 4@0\nnear 4 evals 4: 2@0 3@0 4@0 1@11\n",
    },
    // pairs
    Row {
        words: &PLANE,
        script: "add 0 1 0,0\nadd 0 2 3,4\nadd 1 1 1,1\nadd 1 9 3,5\njoin 0 1 3\njoin 1 0 3\njoin 0 0 7\njoin 0 1 x\n",
        text: "ok\nok\nok\nok\njoin 2 evals 4 sure 0: 1-1 2-9\njoin 2 evals 4 sure 0: 1-1 9-2\njoin 1 evals 1 sure 0: 1-2\nbad number\n",
    },
    Row {
        words: &PLANE,
        script: "add 0 1 7,7\nadd 0 2 7,7\nadd 0 3 7,7\njoin 0 0 0\n",
        text: "ok\nok\nok\njoin 3 evals 3 sure 0: 1-2 1-3 2-3\n",
    },
    // the other kinds
    Row {
        words: &["mem", "linf", "2", "255"],
        script: "add 0 1 3,4\nrange 0 4 0,0\nrange 0 3 0,0\n",
        text: "ok\nrange 1 evals 1 sure 0: 1\nrange 0 evals 1 sure 0:\n",
    },
    Row {
        words: &["mem", "hamming", "3"],
        script: "add 0 1 616263\nrange 0 1 616264\nadd 0 2 61626A\nget 0 1\n",
        text: "ok\nrange 1 evals 1 sure 0: 1\nbad object\nobject 616263\n",
    },
    Row {
        words: &["mem", "sets", "100", "5"],
        script: "add 0 1 1,2,3\nadd 0 2 2,3,4\nnear 0 1 2,3\nadd 0 3 -\nget 0 3\nadd 0 4 5,5\n",
        text: "ok\nok\nnear 1 evals 2: 1@1\nok\nobject -\nbad object\n",
    },
    // the pivots 0,0 and 255,0, and five objects
    Row {
        words: &PIVOTED,
        script: "sample 0,0\nsample 255,0\nsample 10,10\n\
             add 0 1 0,0\nadd 0 2 3,4\nadd 0 3 10,0\nadd 0 4 100,100\nadd 0 5 255,0\n\
             range 0 8 3,0\nrange 1 8 3,0\nnear 0 2 3,0\nnear 0 9 3,0\nrange 0 4294967295 3,0\n\
             sample 1,1\nsample 256,0\nadd 0 1 9,9\ndrop 0 77\nget 0 2\ncount 0\nget 3 2\n",
        text: "ok\nok\nok\nok\nok\nok\nok\nok\n\
             range 3 evals 4 sure 1: 1 2 3\nrange 0 evals 2 sure 0:\nnear 2 evals 4: 1@3 2@4\n\
             near 5 evals 7: 1@3 2@4 3@7 4@197 5@252\nrange 5 evals 2 sure 5: 1 2 3 4 5\n\
             late\nbad object\nexists\nabsent\nobject 3,4\ncount 5\nabsent\n",
    },
    // two with one bound and one distance
    Row {
        words: &PIVOTED,
        script: "sample 0,0\nsample 255,0\nsample 10,10\nadd 1 8 1,0\nadd 1 7 0,1\nnear 1 1 0,0\n",
        text: "ok\nok\nok\nok\nok\nnear 1 evals 3: 7@1\n",
    },
    // a pair that is sure, and one that is measured
    Row {
        words: &PIVOTED,
        script: "sample 0,0\nsample 255,0\nsample 10,10\n\
             add 0 1 0,0\nadd 0 2 3,4\nadd 1 1 1,1\nadd 1 9 3,5\njoin 0 1 3\n",
        text: "ok\nok\nok\nok\nok\nok\nok\njoin 2 evals 1 sure 1: 1-1 2-9\n",
    },
    // twins
    Row {
        words: &PIVOTED,
        script: "sample 0,0\nsample 255,0\nsample 10,10\nadd 0 1 7,7\nadd 0 2 7,7\njoin 0 0 0\n",
        text: "ok\nok\nok\nok\nok\njoin 1 evals 1 sure 0: 1-2\n",
    },
    // a bound that is the distance of the last rank, under a lesser id
    Row {
        words: &["mem", "l1", "2", "255", "1"],
        script: "sample 0,0\nadd 0 9 0,2\nadd 0 3 6,0\nnear 0 1 2,0\n",
        text: "ok\nok\nok\nnear 1 evals 3: 3@4\n",
    },
    // more pivots are wanted than there are samples
    Row {
        words: &["mem", "l1", "2", "255", "8"],
        script: "sample 0,0\nsample 255,0\nsample 10,10\nadd 0 1 10,10\nrange 0 0 10,10\nnear 0 1 10,10\n",
        text: "ok\nok\nok\nok\nrange 1 evals 3 sure 1: 1\nnear 1 evals 4: 1@0\n",
    },
    // the samples are all equal
    Row {
        words: &PIVOTED,
        script: "sample 5,5\nsample 5,5\nsample 5,5\nadd 0 1 5,6\nadd 0 2 5,5\nrange 0 1 5,5\n",
        text: "ok\nok\nok\nok\nok\nrange 2 evals 2 sure 2: 1 2\n",
    },
    // no samples, so no pivots
    Row {
        words: &PIVOTED,
        script: "add 0 1 0,0\nrange 0 0 0,0\nsample 0,0\n",
        text: "ok\nrange 1 evals 1 sure 0: 1\nlate\n",
    },
];

/// The script of the first row that the program or the plain one answers otherwise.
fn first_wrong(alloc: Global) -> Result<Option<&'static str>, Fail> {
    for row in &ROWS {
        if !are_answers(alloc, row.words, row.script.as_bytes(), row.text.as_bytes())? {
            return Ok(Some(row.script));
        }
    }
    Ok(None)
}

#[test]
fn worked_rows_are_answered(rt: HostRuntime) -> Result<(), Fail> {
    assert_eq!(rt; first_wrong(rt.alloc())?, None);
    Ok(())
}
