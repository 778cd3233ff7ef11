//! Pages that are asked for, and the sums of what they hold.
ghost use Rattle.std.specs.Prelude.{◌<◌};
ghost use Rattle.cache_bench.specs.declared.TheConstants.{NODES};

use crate::{FIRST, NODES};
use page_laws::{PAGE_SIZE, PageError, Pages};

/// How many levels the tree has. Each of its nodes but the leaves has eight below it.
const LEVELS: u32 = 5;

/// Asks for the same 64 pages in turn, here and there, so often.
pub(crate) fn turn_sum<P: Pages>(pages: &mut P, rounds: u32) -> Result<u64, PageError> {
    let mut page = [0; PAGE_SIZE];
    let mut sum = 0;
    for _ in 0..rounds {
        sum = one_turn(pages, &mut page, sum)?;
    }
    Ok(sum)
}

/// Asks for the 64 pages once, and adds a byte of each to the sum.
fn one_turn<P: Pages>(
    pages: &mut P,
    page: &mut [u8; PAGE_SIZE],
    sum: u64,
) -> Result<u64, PageError> {
    let mut sum = sum;
    for i in 0..64 {
        let n = FIRST + i * 7 % 64;
        if !pages.is_live(n) {
            return Ok(sum);
        }
        pages.get(n, page)?;
        sum = added(sum, page[i as usize]);
    }
    Ok(sum)
}

/// Goes so often down the tree.
pub(crate) fn walk_sum<P: Pages>(pages: &mut P, rounds: u32) -> Result<u64, PageError> {
    let mut page = [0; PAGE_SIZE];
    let mut random = 88_172_645_463_325_252;
    let mut sum = 0;
    for _ in 0..rounds {
        random = next_random(random);
        sum = one_walk(pages, &mut page, random, sum)?;
    }
    Ok(sum)
}

/// Goes from the root to a leaf, and adds a byte of each node's page to the sum. Of a node's eight children the
/// first ones are chosen most often.
fn one_walk<P: Pages>(
    pages: &mut P,
    page: &mut [u8; PAGE_SIZE],
    random: u64,
    sum: u64,
) -> Result<u64, PageError> {
    let mut sum = sum;
    let mut node: u32 = 0;
    for level in 0..LEVELS {
        let n = FIRST + node;
        if !pages.is_live(n) {
            return Ok(sum);
        }
        pages.get(n, page)?;
        sum = added(sum, page[level as usize]);
        node = child_of(node, random >> (6 * level));
    }
    Ok(sum)
}

/// A child of a node; the root is node 0, and the children of each node follow one another.
fn child_of(node: u32, random: u64) -> u32
    ensures { result < NODES }
{
    let child = (random % 8) * (random / 8 % 8) / 8;
    node.wrapping_mul(8).wrapping_add(1 + child as u32) % NODES
}

/// The generator's next state.
fn next_random(random: u64) -> u64 {
    let mut next = random;
    next ^= next << 13;
    next ^= next >> 7;
    next ^= next << 17;
    next
}

/// The sum with a byte more.
fn added(sum: u64, byte: u8) -> u64 {
    sum.wrapping_mul(3).wrapping_add(u64::from(byte))
}
