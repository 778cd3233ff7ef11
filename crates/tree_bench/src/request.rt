//! What a line asks for.

use std::alloc::{AllocError, Global};

/// What is timed.
#[derive(Clone, Copy)]
pub(crate) enum Job {
    /// Trees are filled.
    Insert,
    /// Leaves are read as nodes.
    Nodes,
    /// The same, and each entry is read where it stands.
    Entries,
    /// Each entry is found.
    Find,
    /// All entries are given as a list.
    Walk,
    /// All entries are given one at a time.
    Cursor,
}

/// How often something is done with a tree of how many entries.
#[derive(Clone, Copy)]
pub(crate) struct Request {
    pub(crate) job: Job,
    pub(crate) count: u32,
    pub(crate) rounds: u32,
}

/// What the line asks for, if its words are known.
pub(crate) fn read_request(alloc: Global, line: &str) -> Result<Option<Request>, AllocError> {
    let words: Vec<&str> = line.split(' ').collect(alloc)?;
    let &[job, count, rounds] = words.as_slice() else {
        return Ok(None);
    };
    let Some(job) = read_job(job) else {
        return Ok(None);
    };
    let (Ok(count), Ok(rounds)) = (count.parse::<u32>(), rounds.parse::<u32>()) else {
        return Ok(None);
    };
    Ok(Some(Request { job, count, rounds }))
}

/// What the word says is timed.
fn read_job(word: &str) -> Option<Job> {
    match word {
        "insert" => Some(Job::Insert),
        "nodes" => Some(Job::Nodes),
        "entries" => Some(Job::Entries),
        "find" => Some(Job::Find),
        "walk" => Some(Job::Walk),
        "cursor" => Some(Job::Cursor),
        _ => None,
    }
}
