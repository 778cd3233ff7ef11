//! Fills a B+-tree and reads it many times over, so that a script can time it.
//!
//! A line of standard input is such as `find 60000 10`: what is timed, how many entries the tree has,
//! and how often it is done. A tree is filled once for each line. The answer is the line, a sum that
//! depends on the tree's entries and their order, and the sum of what was read.
#![tactic(auto)]

mod entries;
mod filling;
mod reading;
mod request;
mod untold;

use crate::entries::entries;
use crate::filling::{fill, fill_again};
use crate::reading::{Leaves, course_sum, found_sum, order_sum, walk_sum};
use crate::request::{Job, Request, read_request};
use crate::untold::Untold;
use page_laws::TreeError;
use std::alloc::Global;
use std::io;
use z_curve::ZCurve;

/// The curve whose keys the entries have.
const CURVE: ZCurve = ZCurve { n: 5, b: 12 };

fn main(rt: HostRuntime) -> io::Result<()> {
    for line in rt.lines(rt.alloc()) {
        let line = line?;
        let Some(request) = read_request(rt.alloc(), line.as_str())? else {
            println!(rt; "{line} isn't known")?;
            continue;
        };
        match sums(rt.alloc(), request) {
            Ok((order, sum)) => println!(rt; "{line} {order} {sum}")?,
            Err(why) => println!(rt; "{line} failed: {why}")?,
        }
    }
    Ok(())
}

/// The two sums that are asked for.
fn sums(alloc: Global, request: Request) -> Result<(u64, u64), TreeError> {
    let rounds = request.rounds;
    let entries = entries(alloc, &CURVE, request.count)?;
    let mut pages = Untold::for_entries(alloc, request.count)?;
    let root = fill(&mut pages, &entries, &CURVE)?;
    let order = order_sum(alloc, &mut pages, root)?;
    let sum = match request.job {
        Job::Insert => fill_again(alloc, &entries, &CURVE, request)?,
        Job::Nodes => Leaves::of_tree(alloc, &mut pages)?.count_sum(rounds),
        Job::Entries => Leaves::of_tree(alloc, &mut pages)?.entry_sum(rounds),
        Job::Find => found_sum(&mut pages, root, &entries, rounds)?,
        Job::Walk => walk_sum(alloc, &mut pages, root, rounds)?,
        Job::Cursor => course_sum(alloc, &mut pages, root, rounds)?,
    };
    Ok((order, sum))
}
