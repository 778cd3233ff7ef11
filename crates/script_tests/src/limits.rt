//! Scripts that come to the limits, and many twins. They are compared with the plain program.
use crate::plays::{PLANE, are_alike, are_answers};
use std::alloc::{AllocError, Global};
use std::test::Fail;

/// A line of 16,384 bytes, one with a byte more, and some with bytes that are no text.
fn long_lines(alloc: Global) -> Result<Vec<u8>, AllocError> {
    let mut script = vec![in alloc; b'a'; 16_384 + 1 + 16_385]?;
    script[16_384] = b'\n';
    script.extend_from_slice(b"\nadd 0 1 \xff\nadd 0 \xff 0,0\nsample 0,0\n\n\ncount 0\n")?;
    Ok(script)
}

#[test]
fn a_line_at_the_limit_and_one_past_it(rt: HostRuntime) -> Result<(), Fail> {
    let script = long_lines(rt.alloc())?;
    let text = b"bad command\nlong\nbad object\nbad id\nok\nbad command\nbad command\ncount 0\n";
    assert!(rt; are_answers(rt.alloc(), &PLANE, &script, text)?);
    Ok(())
}

/// One sample more than are kept, and one after a command.
fn samples(alloc: Global) -> Result<String, AllocError> {
    let mut script = String::new(alloc);
    for _ in 0..4_097 {
        script.push_str("sample 0,0\n")?;
    }
    script.push_str("count 0\nsample 0,0\n")?;
    Ok(script)
}

#[test]
fn one_sample_more_than_are_kept(rt: HostRuntime) -> Result<(), Fail> {
    let script = samples(rt.alloc())?;
    assert!(rt; are_alike(rt.alloc(), &PLANE, script.as_bytes())?);
    Ok(())
}

/// As many objects as there is room for, over all collections.
fn additions(alloc: Global) -> Result<String, AllocError> {
    let mut script = String::new(alloc);
    for id in 0..65_536u32 {
        let collection = id % 4;
        script.push_str(&format!(in alloc; "add {collection} {id} 0,0\n")?)?;
    }
    Ok(script)
}

#[test]
fn a_full_session(rt: HostRuntime) -> Result<(), Fail> {
    let mut script = additions(rt.alloc())?;
    script.push_str(
        "add 0 65536 0,0\nadd 0 65536 x\nadd 0 4 1,1\nadd 1 4 1,1\n\
         drop 2 9\nadd 1 4 1,1\ndrop 2 2\nadd 1 4 1,1\nadd 2 2 1,1\n\
         count 0\ncount 1\ncount 2\ncount 3\n",
    )?;
    assert!(rt; are_alike(rt.alloc(), &PLANE, script.as_bytes())?);
    Ok(())
}

/// Forty equal objects, and all pairs of them.
fn twins(alloc: Global) -> Result<String, AllocError> {
    let mut script = String::from_str(alloc, "sample 0,0\nsample 255,0\nsample 10,10\n")?;
    for id in 0..40u32 {
        script.push_str(&format!(in alloc; "add 0 {id} 7,7\n")?)?;
    }
    script.push_str("join 0 0 0\n")?;
    Ok(script)
}

#[test]
fn forty_twins_make_all_pairs(rt: HostRuntime) -> Result<(), Fail> {
    let script = twins(rt.alloc())?;
    let words = ["mem", "l1", "2", "255", "2"];
    assert!(rt; are_alike(rt.alloc(), &words, script.as_bytes())?);
    Ok(())
}
