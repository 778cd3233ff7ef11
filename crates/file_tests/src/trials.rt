//! Trials, and their scripts answered in memory.
use crate::plays::{is_so, play, sink};
use spb_edge::SureDisk;
use spb_top::Status;
use std::alloc::{AllocError, Global};
use std::test::Fail;

/// Whether a trial of one object from the seed writes the only line that there is.
fn is_of_one_object(alloc: Global, seed: &str) -> Result<bool, Fail> {
    let mut disk = SureDisk::new(alloc, &[])?;
    let texts = ["trial", "t.spb", seed, "1"];
    let line = b"trial changes 1 range 0 evals 64 sure 0 near 16 evals 80 join 0 evals 0 sure 0\n";
    is_so(alloc, &texts, b"", &mut disk, Status::Done, line)
}

#[test]
fn trials_of_one_object(rt: HostRuntime) -> Result<(), Fail> {
    for seed in ["0", "1", "18446744073709551615"] {
        assert!(rt; is_of_one_object(rt.alloc(), seed)?, "{seed}");
    }
    Ok(())
}

/// The generator of a trial's objects.
#[derive(Drop)]
struct Draws {
    state: u64,
}

impl Draws {
    /// A number from 0 to 1000.
    fn number(&mut self) -> u64 {
        self.state = self
            .state
            .wrapping_mul(6_364_136_223_846_793_005)
            .wrapping_add(1_442_695_040_888_963_407);
        (self.state >> 33) % 1_001
    }

    /// Appends a line that ends with a drawn object to the script.
    fn append_line(
        &mut self,
        alloc: Global,
        start: &str,
        script: &mut String,
    ) -> Result<(), AllocError> {
        let (a, b, c, d) = (self.number(), self.number(), self.number(), self.number());
        script.push_str(&format!(in alloc; "{start} {a},{b},{c},{d}\n")?)
    }
}

/// The script of the trial of so many objects from the seed, after its samples.
fn script_of(alloc: Global, seed: u64, count: u32) -> Result<String, AllocError> {
    let mut draws = Draws { state: seed };
    let mut script = String::new(alloc);
    for _ in 0..16 {
        draws.append_line(alloc, "sample", &mut script)?;
    }
    for i in 0..count {
        let start = format!(in alloc; "add {} {}", i % 2, i / 2)?;
        draws.append_line(alloc, &start, &mut script)?;
    }
    for _ in 0..16 {
        draws.append_line(alloc, "range 1 400", &mut script)?;
    }
    for _ in 0..16 {
        draws.append_line(alloc, "near 0 5", &mut script)?;
    }
    script.push_str("join 0 1 60\n")?;
    Ok(script)
}

/// The number after the name in a reply, or 0 if there is none.
fn number_after(reply: &str, name: &str) -> u64 {
    let Some((_, rest)) = reply.split_once(name) else {
        return 0;
    };
    match rest.split([' ', ':']).next() {
        Some(word) => word.parse::<u64>().unwrap_or(0),
        None => 0,
    }
}

/// The sum of the numbers after `part` in the replies that begin with `name`.
fn sum_of(replies: &str, name: &str, part: &str) -> u64 {
    let mut sum = 0u64;
    for reply in replies.split('\n') {
        if reply.starts_with(name) {
            sum = sum.saturating_add(number_after(reply, part));
        }
    }
    sum
}

/// How many of the replies are ok.
fn count_ok(replies: &str) -> u64 {
    let mut count = 0u64;
    for reply in replies.split('\n') {
        if reply == "ok" {
            count = count.saturating_add(1);
        }
    }
    count
}

/// The line that the replies to a trial's script come to, those to the 16 samples among them.
fn line_of(alloc: Global, replies: &str) -> Result<String, AllocError> {
    let changes = count_ok(replies).saturating_sub(16);
    format!(in alloc;
        "trial changes {} range {} evals {} sure {} near {} evals {} join {} evals {} sure {}\n",
        changes,
        sum_of(replies, "range", "range "),
        sum_of(replies, "range", "evals "),
        sum_of(replies, "range", "sure "),
        sum_of(replies, "near", "near "),
        sum_of(replies, "near", "evals "),
        sum_of(replies, "join", "join "),
        sum_of(replies, "join", "evals "),
        sum_of(replies, "join", "sure "),
    )
}

/// The line of the trial of 300 objects from the seed 7, as a store in memory answers its script.
fn line_in_memory(alloc: Global) -> Result<String, Fail> {
    let script = script_of(alloc, 7, 300)?;
    let mut disk = SureDisk::new(alloc, &[])?;
    let mut output = sink(alloc)?;
    let texts = ["mem", "l1", "4", "1000", "4"];
    let status = play(alloc, &texts, script.as_bytes(), &mut output, &mut disk)?;
    if status != Status::Done {
        return Err(Fail::new("the script isn't answered"));
    }
    Ok(line_of(alloc, std::str::from_utf8(output.taken())?)?)
}

#[test]
fn a_trial_is_the_same_as_in_memory(rt: HostRuntime) -> Result<(), Fail> {
    let line = line_in_memory(rt.alloc())?;
    assert!(rt; line.starts_with("trial changes 300 range "));
    for _ in 0..2 {
        let mut disk = SureDisk::new(rt.alloc(), &[])?;
        let texts = ["trial", "t.spb", "7", "300"];
        assert!(rt;
            is_so(
                rt.alloc(),
                &texts,
                b"",
                &mut disk,
                Status::Done,
                line.as_bytes()
            )?
        );
    }
    Ok(())
}
