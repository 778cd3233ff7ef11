//! Roots that have fewer rows.
ghost use Rattle.std.specs.Prelude.{◌≡◌, ◌+◌, ◌<◌, ◌≤◌, IsTrue, length};
ghost use Rattle.page_laws.specs.Pages.{is_live};
ghost use Rattle.page_laws.specs.declared.pages.TheConstants.{CHANGE_LIMIT};
ghost use Rattle.bptree_node.specs.declared.layout.TheConstants.{MOST_ENTRIES, MOST_BRANCHES};
ghost use Rattle.bptree_mend.specs.Mending.{PagesShrink};
ghost use Rattle.bptree_shrink.specs.Shrinking.{SettlesLeaf, SettlesInner};

use bptree_edit::{put_inner, put_leaf};
use bptree_node::{Branch, Entry};
use page_laws::{Pages, Root};

/// Makes a root that is a leaf have these entries, 30 at most. Without entries its page is given back,
/// and the tree is the empty one. It gives the new root.
pub fn settle_leaf<P: Pages>(pages: &mut P, root: Root, entries: &[Entry]) -> Root
    requires live { IsTrue (is_live (P.in_pool pages.old) (P.free pages.old) root.page) }
    requires open { IsTrue (P.is_open pages.old) }
    requires put { length (P.put_pages pages.old) < CHANGE_LIMIT }
    requires few { length entries.now ≤ MOST_ENTRIES }
    ensures settles { SettlesLeaf root entries.now (P.page_at pages.old) (P.page_at pages.new) (P.free pages.old) (P.free pages.new) result }
    ensures pages { PagesShrink P.is_known P.has P.in_pool P.free P.is_open P.put_pages P.calm 1 1 pages.old pages.new }
    ensures faults { P.faults pages.new ≡ P.faults pages.old }
{
    if entries.is_empty() {
        pages.give_page(root.page);
        return Root { page: 0, height: 0 };
    }
    put_leaf(pages, root.page, entries);
    root
}

/// Makes a root that is an inner node have these branches, 1 to 14 of them. With one branch its page is
/// given back, and the node under that branch is the root. It gives the new root.
pub fn settle_inner<P: Pages>(pages: &mut P, root: Root, branches: &[Branch]) -> Root
    requires height { 2 ≤ root.height }
    requires live { IsTrue (is_live (P.in_pool pages.old) (P.free pages.old) root.page) }
    requires open { IsTrue (P.is_open pages.old) }
    requires put { length (P.put_pages pages.old) < CHANGE_LIMIT }
    requires some { 1 ≤ length branches.now }
    requires few { length branches.now ≤ MOST_BRANCHES }
    ensures settles { SettlesInner root branches.now (P.page_at pages.old) (P.page_at pages.new) (P.free pages.old) (P.free pages.new) result }
    ensures pages { PagesShrink P.is_known P.has P.in_pool P.free P.is_open P.put_pages P.calm 1 1 pages.old pages.new }
    ensures faults { P.faults pages.new ≡ P.faults pages.old }
{
    if branches.len() == 1 {
        pages.give_page(root.page);
        return Root {
            page: branches[0].child,
            height: root.height - 1,
        };
    }
    put_inner(pages, root.page, branches);
    root
}
