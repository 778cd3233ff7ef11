//! Runs over streams in memory, and the plain program beside them.
use spb_edge::{MemSink, MemSource, SureDisk};
use spb_top::{Status, run};
use std::alloc::{AllocError, Global};
use std::test::Fail;

/// The words of vectors of two components.
pub(crate) const PLANE: [&str; 4] = ["mem", "l1", "2", "255"];

/// The words, each of them owned.
pub(crate) fn owned(alloc: Global, texts: &[&str]) -> Result<Vec<String>, AllocError> {
    let mut words = Vec::new(alloc);
    for text in texts {
        words.push(String::from_str(alloc, *text)?)?;
    }
    Ok(words)
}

/// How a run of the words ends over the streams.
pub(crate) fn play_over(
    alloc: Global,
    texts: &[&str],
    input: &mut MemSource,
    output: &mut MemSink,
) -> Result<Status, Fail> {
    let words = owned(alloc, texts)?;
    let mut disk = SureDisk::new(alloc, &[])?;
    Ok(run(alloc, &words, input, output, &mut disk))
}

/// How a run of the words ends on the script. What it writes is in the sink.
fn play(
    alloc: Global,
    texts: &[&str],
    script: &[u8],
    output: &mut MemSink,
) -> Result<Status, Fail> {
    let mut input = MemSource::new(alloc, script, 100, &[])?;
    play_over(alloc, texts, &mut input, output)
}

/// Whether the plain program answers the script of the words so.
fn is_plain_answer(
    alloc: Global,
    texts: &[&str],
    script: &[u8],
    text: &[u8],
) -> Result<bool, Fail> {
    match plain_store::play(alloc, texts, script)? {
        Some(plain) => Ok(plain.as_slice() == text),
        None => Ok(false),
    }
}

/// Whether the script of the words is answered so to its end.
fn is_answer(alloc: Global, texts: &[&str], script: &[u8], text: &[u8]) -> Result<bool, Fail> {
    let mut output = MemSink::new(alloc, 1 << 20, &[])?;
    let status = play(alloc, texts, script, &mut output)?;
    Ok(status == Status::Done && output.taken() == text)
}

/// Whether the program and the plain one both answer the script of the words so, to its end.
pub(crate) fn are_answers(
    alloc: Global,
    texts: &[&str],
    script: &[u8],
    text: &[u8],
) -> Result<bool, Fail> {
    let is_answer = is_answer(alloc, texts, script, text)?;
    Ok(is_answer && is_plain_answer(alloc, texts, script, text)?)
}

/// Whether the program and the plain one answer the script of the words the same, to its end.
pub(crate) fn are_alike(alloc: Global, texts: &[&str], script: &[u8]) -> Result<bool, Fail> {
    let mut output = MemSink::new(alloc, 1 << 20, &[])?;
    let status = play(alloc, texts, script, &mut output)?;
    Ok(status == Status::Done && is_plain_answer(alloc, texts, script, output.taken())?)
}
