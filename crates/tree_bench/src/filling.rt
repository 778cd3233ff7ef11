//! Trees filled.
ghost use Rattle.std.specs.Prelude.{◌≤◌, IfOk};
ghost use Rattle.bptree_node.specs.declared.layout.TheConstants.{HEIGHT_LIMIT};

use crate::request::Request;
use crate::untold::Untold;
use box_corner::CurveBoxes;
use bptree_insert::insert;
use bptree_node::Entry;
use curve_laws::Curve;
use page_laws::{Pages, Root, TreeError};
use std::alloc::Global;
use z_curve::ZCurve;

/// How many pages are free at least where an entry is inserted.
const LEAST_FREE: u32 = 6;

/// The root of a tree of the entries, inserted one after the other, as far as the pages go.
pub(crate) fn fill(pages: &mut Untold, entries: &[Entry], curve: &ZCurve) -> Result<Root, TreeError>
    ensures { IfOk result (λ root. root.height ≤ HEIGHT_LIMIT) }
{
    let boxes = CurveBoxes { curve };
    let mut root = Root { page: 0, height: 0 };
    for entry in entries {
        if pages.free_pages() < LEAST_FREE || !curve.has_key(entry.key) {
            break;
        }
        root = insert(pages, root, *entry, &boxes)?;
    }
    Ok(root)
}

/// Fills a tree in each round that is asked for, in pages of its own. It gives the sum of the pages that
/// were left.
pub(crate) fn fill_again(
    alloc: Global,
    entries: &[Entry],
    curve: &ZCurve,
    request: Request,
) -> Result<u64, TreeError> {
    let mut sum: u64 = 0;
    for _ in 0..request.rounds {
        let mut pages = Untold::for_entries(alloc, request.count)?;
        fill(&mut pages, entries, curve)?;
        sum = sum.wrapping_add(u64::from(pages.free_pages()));
    }
    Ok(sum)
}
