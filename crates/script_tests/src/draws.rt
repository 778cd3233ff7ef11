//! Drawn scripts, answered by the program and by the plain one.
use crate::plays::are_alike;
use std::alloc::{AllocError, Global};
use std::test::Fail;

/// Words of the program, and objects of their kind among others that are none.
const OBJECTS: [(&[&str], &[&str]); 4] = [
    (
        &["mem", "l1", "2", "255"],
        &[
            "0,0", "0,1", "1,0", "3,4", "4,3", "7,7", "7,7", "10,0", "255,255", "256,0", "1",
            "1,2,3",
        ],
    ),
    (
        &["mem", "linf", "2", "255"],
        &[
            "0,0", "0,1", "1,0", "3,4", "4,3", "7,7", "7,7", "10,0", "255,255", "256,0", "1",
            "1,2,3",
        ],
    ),
    (
        &["mem", "hamming", "3"],
        &[
            "000000", "000001", "0000ff", "00ff00", "ff0000", "ffffff", "010203", "010203",
            "0a0b0c", "0A0B0C", "0a0b", "x",
        ],
    ),
    (
        &["mem", "sets", "100", "5"],
        &[
            "-",
            "0",
            "99",
            "1,2,3",
            "2,3",
            "2,3",
            "2,3,4,5,6",
            "1,3,5,7,9",
            "98,99",
            "100",
            "5,5",
            "1,2,3,4,5,6",
        ],
    ),
];

/// Forms of lines: after the name `c` stands for a collection, `i` for an id, `k` for a number of
/// objects, `r` for a radius and `o` for an object.
const FORMS: [&str; 14] = [
    "add c i o",
    "add c i o",
    "add c i o",
    "add c i o",
    "add c i o",
    "drop c i",
    "get c i",
    "count c",
    "range c r o",
    "near c k o",
    "near c k o",
    "join c c r",
    "sample o",
    "fetch c i",
];

const COLLECTIONS: [&str; 10] = ["0", "0", "0", "0", "1", "1", "1", "2", "3", "4"];

const IDS: [&str; 14] = [
    "0",
    "1",
    "2",
    "3",
    "4",
    "5",
    "6",
    "7",
    "8",
    "9",
    "10",
    "4294967295",
    "4294967296",
    "07",
];

const MANY: [&str; 9] = ["1", "2", "3", "4", "5", "10", "65536", "65537", "0"];

const RADII: [&str; 10] = [
    "0",
    "1",
    "2",
    "3",
    "4",
    "7",
    "14",
    "510",
    "4294967295",
    "+1",
];

/// Draws words, the same ones whenever it begins at the same state.
#[derive(Drop)]
struct Draws {
    state: u64,
}

impl Draws {
    /// One of the words.
    fn word<'a>(&mut self, words: &[&'a str]) -> &'a str {
        self.state = self
            .state
            .wrapping_mul(6_364_136_223_846_793_005)
            .wrapping_add(1_442_695_040_888_963_407);
        let place = (self.state >> 33) as usize % words.len().max(1);
        words.get(place).copied().unwrap_or("")
    }

    /// Appends a line of one of the forms to the script.
    fn line(&mut self, objects: &[&str], script: &mut String) -> Result<(), AllocError> {
        let Some((name, parts)) = self.word(&FORMS).split_once(' ') else {
            return Ok(());
        };
        script.push_str(name)?;
        for part in parts.split(' ') {
            script.push_str(" ")?;
            script.push_str(match part {
                "c" => self.word(&COLLECTIONS),
                "i" => self.word(&IDS),
                "k" => self.word(&MANY),
                "r" => self.word(&RADII),
                _ => self.word(objects),
            })?;
        }
        script.push_str("\n")
    }
}

/// A script of five samples, some of which may be none, and 200 lines.
fn drawn_script(alloc: Global, seed: u64, objects: &[&str]) -> Result<String, AllocError> {
    let mut draws = Draws { state: seed };
    let mut script = String::new(alloc);
    for _ in 0..5 {
        script.push_str("sample ")?;
        script.push_str(draws.word(objects))?;
        script.push_str("\n")?;
    }
    for _ in 0..200 {
        draws.line(objects, &mut script)?;
    }
    Ok(script)
}

/// Whether both programs answer the script drawn from the seed the same with this many pivots.
fn is_drawn_alike<'a>(
    alloc: Global,
    texts: &[&'a str],
    objects: &[&str],
    seed: u64,
    pivots: &'a str,
) -> Result<bool, Fail> {
    let mut with_pivots = Vec::from_slice(alloc, texts)?;
    with_pivots.push(pivots)?;
    let script = drawn_script(alloc, seed, objects)?;
    are_alike(alloc, &with_pivots, script.as_bytes())
}

/// Whether both programs answer drawn scripts of the kind the same with 0, 1, 3 and 8 pivots.
fn are_drawn_alike(alloc: Global, texts: &[&str], objects: &[&str]) -> Result<bool, Fail> {
    for (seed, pivots) in [(0u64, "0"), (1, "1"), (2, "3"), (3, "8")] {
        if !is_drawn_alike(alloc, texts, objects, seed, pivots)? {
            return Ok(false);
        }
    }
    Ok(true)
}

#[test]
fn drawn_scripts(rt: HostRuntime) -> Result<(), Fail> {
    for (texts, objects) in OBJECTS {
        assert!(rt; are_drawn_alike(rt.alloc(), texts, objects)?);
    }
    Ok(())
}
