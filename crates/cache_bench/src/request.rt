//! What a line asks for.
use std::alloc::{AllocError, Global};

/// Which pages are asked for.
#[derive(Clone, Copy)]
pub(crate) enum Job {
    /// The same 64 in turn.
    Turns,
    /// Those on a way down a tree of five levels.
    Walks,
    /// The same, and the answer is how often the disk was read.
    Reads,
}

/// How often they are asked for, and for how many pages there is room; without room there is no cache.
#[derive(Clone, Copy)]
pub(crate) struct Request {
    pub(crate) job: Job,
    pub(crate) room: u32,
    pub(crate) rounds: u32,
}

/// What the line asks for, if its words are known.
pub(crate) fn read_request(alloc: Global, line: &str) -> Result<Option<Request>, AllocError> {
    let words: Vec<&str> = line.split(' ').collect(alloc)?;
    let &[job, room, rounds] = words.as_slice() else {
        return Ok(None);
    };
    let job = match job {
        "turns" => Job::Turns,
        "walks" => Job::Walks,
        "reads" => Job::Reads,
        _ => return Ok(None),
    };
    let (Ok(room), Ok(rounds)) = (room.parse::<u32>(), rounds.parse::<u32>()) else {
        return Ok(None);
    };
    Ok(Some(Request { job, room, rounds }))
}
