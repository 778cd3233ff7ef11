//! One entry, by its key and id.
ghost use Rattle.std.specs.Prelude.{◌≡◌, ◌+◌, ◌≤◌, ◌<◌, ℕ, Bool, false, IsTrue, IfOk, OnOk, IfErr};
ghost use Rattle.std.specs.List.{prefix_len};
ghost use Rattle.page_laws.specs.Calls.{PagesStay};
ghost use Rattle.page_laws.specs.Errors.{CountsTreeFault, IsNotDamaged};
ghost use Rattle.page_laws.specs.Pages.{is_live};
ghost use Rattle.bptree_node.specs.declared.layout.TheConstants.{HEIGHT_LIMIT};
ghost use Rattle.bptree_node.specs.Nodes.{node_in, is_leaf, row_count, entries_of, branches_of};
ghost use Rattle.bptree_node.specs.Trees.{IsBPlusTree, list_at, node_branches, node_entries, slot_of};
ghost use Rattle.bptree_walk.specs.Damage.{NamesWalkRule, IsDamageOf};
ghost use Rattle.bptree_walk.specs.Routes.{reaches, LeadsTo};
ghost use Rattle.bptree_walk.specs.Visits.{IsCause};

use crate::ahead::Ahead;
use crate::node::{fetch, first_ahead, read_level};
use bptree_node::NodeView;
use page_laws::{PAGE_SIZE, Pages, Root, TreeError};

/// The slot of the entry with this key and id, or None exactly if the tree has no such entry. It reads
/// one page of each level at most.
///
/// Damaged comes only if a page that was read isn't a node of its level (`node`), or names a child that
/// isn't live (`page`; for the root, page 1 is named), and so never over a tree whose pages are live.
pub fn find<P: Pages>(
    pages: &mut P,
    root: Root,
    key: u64,
    id: u32,
) -> Result<Option<u32>, TreeError>
    requires { root.height ≤ HEIGHT_LIMIT }
    ensures finds { IsTrue (P.is_known pages.old) → (of_tree : ℕ → Bool) → IsBPlusTree (P.page_at pages.old) of_tree root
        → IfOk result (λ slot. slot ≡ slot_of key id (list_at (P.page_at pages.old) root)) }
    ensures sound { IsTrue (P.is_known pages.old) → IsBPlusTree (P.page_at pages.old) (is_live (P.in_pool pages.old) (P.free pages.old)) root → IsNotDamaged result }
    ensures damage { IsTrue (P.is_known pages.old) → IsDamageOf (P.page_at pages.old) (is_live (P.in_pool pages.old) (P.free pages.old)) root result }
    ensures names { NamesWalkRule result }
    ensures levels { P.fetches pages.new ≤ P.fetches pages.old + root.height }
    ensures stay { PagesStay P.is_known P.has P.in_pool P.page_at P.free P.is_open P.put_pages P.calm pages.old pages.new }
    ensures fault { CountsTreeFault result (P.faults pages.old) (P.faults pages.new) }
{
    let Some(mut next) = first_ahead(root) else {
        return Ok(None);
    };
    let mut page = [0; PAGE_SIZE];
    while next.level > 0 {
        match find_child(pages, next, key, id, &mut page)? {
            Some(child) => next = child,
            None => return Ok(None),
        }
    }
    find_in_leaf(pages, next, key, id, &mut page)
}

/// The child of an inner node under which the entry with this key and id is, if there is one. It reads
/// the node into `page`.
fn find_child<P: Pages>(
    pages: &mut P,
    next: Ahead,
    key: u64,
    id: u32,
    page: &mut [u8; PAGE_SIZE],
) -> Result<Option<Ahead>, TreeError>
    requires { 0 < next.level }
    ensures child { IfOk result (LeadsTo key id next (node_branches (node_in page.new))) }
    ensures data { IsTrue (P.is_known pages.old) → OnOk result (page.new ≡ P.page_at pages.old next.page) }
    ensures damage { IsTrue (P.is_known pages.old) → IfErr result (IsCause (is_live (P.in_pool pages.old) (P.free pages.old)) next (P.page_at pages.old next.page)) }
    ensures names { NamesWalkRule result }
    ensures levels { P.fetches pages.new ≤ P.fetches pages.old + 1 }
    ensures stay { PagesStay P.is_known P.has P.in_pool P.page_at P.free P.is_open P.put_pages P.calm pages.old pages.new }
    ensures fault { CountsTreeFault result (P.faults pages.old) (P.faults pages.new) }
{
    fetch(pages, next, page)?;
    let node = read_level(page, next)?;
    let reach = reach(&node, key, id);
    if reach == 0 {
        return Ok(None);
    }
    let branch = node.branch(reach - 1);
    Ok(Some(Ahead {
        page: branch.child,
        level: next.level - 1,
        parent: next.page,
    }))
}

/// The slot of the entry with this key and id, or None if the leaf has no such entry. It reads the leaf
/// into `page`.
fn find_in_leaf<P: Pages>(
    pages: &mut P,
    next: Ahead,
    key: u64,
    id: u32,
    page: &mut [u8; PAGE_SIZE],
) -> Result<Option<u32>, TreeError>
    requires { next.level ≡ 0 }
    ensures slot { IsTrue (P.is_known pages.old) → IfOk result (λ slot. slot ≡ slot_of key id (node_entries (node_in (P.page_at pages.old next.page)))) }
    ensures damage { IsTrue (P.is_known pages.old) → IfErr result (IsCause (is_live (P.in_pool pages.old) (P.free pages.old)) next (P.page_at pages.old next.page)) }
    ensures names { NamesWalkRule result }
    ensures levels { P.fetches pages.new ≤ P.fetches pages.old + 1 }
    ensures stay { PagesStay P.is_known P.has P.in_pool P.page_at P.free P.is_open P.put_pages P.calm pages.old pages.new }
    ensures fault { CountsTreeFault result (P.faults pages.old) (P.faults pages.new) }
{
    fetch(pages, next, page)?;
    let leaf = read_level(page, next)?;
    Ok(slot_in(&leaf, key, id))
}

/// How many branches from the first one on aren't after the key and id.
fn reach(node: &NodeView, key: u64, id: u32) -> usize
    requires { is_leaf node.now ≡ false }
    ensures reach { result ≡ prefix_len (reaches key id) (branches_of node.now) }
    ensures few { result ≤ row_count node.now }
{
    for i in 0..node.count() {
        let b = node.branch(i);
        if (key, id).cmp(&(b.key, b.id)).is_lt() {
            return i;
        }
    }
    node.count()
}

/// The slot of the entry with this key and id, or None if the leaf has no such entry.
fn slot_in(leaf: &NodeView, key: u64, id: u32) -> Option<u32>
    requires { IsTrue (is_leaf leaf.now) }
    ensures { result ≡ slot_of key id (entries_of leaf.now) }
{
    for i in 0..leaf.count() {
        let e = leaf.entry(i);
        if e.key == key && e.id == id {
            return Some(e.slot);
        }
    }
    None
}
