//! A tree that is checked from its root.
ghost use Rattle.std.specs.Prelude.{◌≡◌, ◌≤◌, IsTrue};
ghost use Rattle.page_laws.specs.Calls.{PagesStay};
ghost use Rattle.page_laws.specs.Errors.{CountsTreeFault, IsNotDamaged};
ghost use Rattle.page_laws.specs.Pages.{is_live};
ghost use Rattle.bptree_node.specs.declared.layout.TheConstants.{HEIGHT_LIMIT};
ghost use Rattle.tree_check.specs.Checks.{ChecksTree, IsSoundTree};
ghost use Rattle.tree_check.specs.PageSets.{CoversPool, HasSameRange};

use crate::PageSet;
use crate::node::{Spot, check_node};
use bptree_node::{Boxes, Entry, Summary};
use page_laws::{Pages, Root, TreeError};

/// Checks the tree with this root, whatever the pages hold. Each page of it is read once; its entries
/// are added to those gathered, and its pages to those used.
///
/// Ok comes exactly if the tree is sound, its entries have keys of the tree, and none of its pages was
/// used before. Damaged names a page that breaks the rule named: a root or a child that isn't live or is
/// reached twice (`page`, at its parent, or page 1 for the root), a page that is no node of its level
/// (`node`), a node below the root that has too few rows (`fill`), entries or branches out of order or
/// branches that don't have the key and the id of the first entry under their child (`order`), an entry
/// whose key is none of the tree (`key`), and a branch whose corners aren't those of the box around all
/// under it (`box`). After an error what was gathered and used isn't said.
pub fn check_tree<P: Pages, S: Summary, F: Boxes<S>>(
    pages: &mut P,
    root: Root,
    boxes: &F,
    used: &mut PageSet,
    entries: &mut Vec<Entry>,
) -> Result<(), TreeError>
    requires height { root.height ≤ HEIGHT_LIMIT }
    requires empty { root.height ≡ 0 → root.page ≡ 0 }
    requires range { CoversPool (P.in_pool pages.old) used.old }
    ensures checks { IsTrue (P.is_known pages.old)
        → ChecksTree S.joined (F.entry_box boxes.now) (F.keys_of boxes.now) (P.page_at pages.old) (is_live (P.in_pool pages.old) (P.free pages.old)) root
        used.old used.new entries.old.items entries.new.items result }
    ensures sound { IsTrue (P.is_known pages.old)
        → IsSoundTree S.joined (F.entry_box boxes.now) (F.keys_of boxes.now) (P.page_at pages.old) (is_live (P.in_pool pages.old) (P.free pages.old)) used.old root
        → IsNotDamaged result }
    ensures range { HasSameRange used.old used.new }
    ensures stay { PagesStay P.is_known P.has P.in_pool P.page_at P.free P.is_open P.put_pages P.calm pages.old pages.new }
    ensures fault { CountsTreeFault result (P.faults pages.old) (P.faults pages.new) }
{
    if root.height == 0 {
        return Ok(());
    }
    let at = Spot {
        page: root.page,
        level: root.height - 1,
        parent: 1,
    };
    check_node(pages, at, boxes, used, entries)?;
    Ok(())
}
