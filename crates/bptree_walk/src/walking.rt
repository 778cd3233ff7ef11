//! The entries of a region.
ghost use Rattle.std.specs.Prelude.{◌≡◌, ◌≤◌, IsTrue, IfOk, OnOk, length, filter};
ghost use Rattle.page_laws.specs.Calls.{PagesStay};
ghost use Rattle.page_laws.specs.Errors.{CountsTreeFault, IsNotDamaged};
ghost use Rattle.page_laws.specs.Pages.{is_live, count_after};
ghost use Rattle.bptree_node.specs.declared.layout.TheConstants.{HEIGHT_LIMIT};
ghost use Rattle.bptree_node.specs.declared.rows.Entry.{Entry};
ghost use Rattle.bptree_node.specs.Trees.{IsBPlusTree, IsCoveredAt, list_at, visited_at};
ghost use Rattle.bptree_walk.specs.Courses.{MOST_IN_TREE};
ghost use Rattle.bptree_walk.specs.Damage.{NamesWalkRule, IsDamageOf};

use crate::{Cursor, Entries};
use bptree_node::Region;
use page_laws::{Pages, Root, TreeError};
use std::alloc::Global;

/// The entries whose keys the region has, in order. It visits the root, and under each inner node that
/// it visits the children whose boxes meet the region, each node once, and takes memory for the
/// entries alone: at most 1152480 of them, whatever the pages hold.
///
/// What is said of the entries holds for a region that meets each branch under which it has a key.
/// Damaged comes only if a page that was read isn't a node of its level (`node`), or names a child that
/// isn't live (`page`; for the root, page 1 is named), and so never over a tree whose pages are live.
pub fn walk<P: Pages, G: Region>(
    alloc: Global,
    pages: &mut P,
    root: Root,
    region: &G,
) -> Result<Entries, TreeError>
    requires { root.height ≤ HEIGHT_LIMIT }
    ensures entries { IsTrue (P.is_known pages.old) → IsCoveredAt (G.meets_box region.now) (G.has_key region.now) (P.page_at pages.old) root.height root.page
        → IfOk result (λ entries. entries ≡ filter (λ (e : Entry). G.has_key region.now e.key) (list_at (P.page_at pages.old) root)) }
    ensures fetches { IsTrue (P.is_known pages.old)
        → OnOk result (P.fetches pages.new ≡ count_after (P.fetches pages.old) (visited_at (G.meets_box region.now) (P.page_at pages.old) root)) }
    ensures few { IfOk result (λ entries. length entries ≤ MOST_IN_TREE) }
    ensures sound { IsTrue (P.is_known pages.old) → IsBPlusTree (P.page_at pages.old) (is_live (P.in_pool pages.old) (P.free pages.old)) root → IsNotDamaged result }
    ensures damage { IsTrue (P.is_known pages.old) → IsDamageOf (P.page_at pages.old) (is_live (P.in_pool pages.old) (P.free pages.old)) root result }
    ensures names { NamesWalkRule result }
    ensures stay { PagesStay P.is_known P.has P.in_pool P.page_at P.free P.is_open P.put_pages P.calm pages.old pages.new }
    ensures fault { CountsTreeFault result (P.faults pages.old) (P.faults pages.new) }
{
    let mut found = Entries::new(alloc);
    let mut cursor = Cursor::empty(alloc);
    cursor.begin(root);
    while cursor.visit_next(pages, region)? {
        cursor.give_leaf(region, &mut found)?;
    }
    Ok(found)
}
