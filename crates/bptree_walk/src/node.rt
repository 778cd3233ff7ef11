//! One node, tested and read.
ghost use Rattle.std.specs.Prelude.{◌≡◌, ◌==◌, ◌+◌, ◌≤◌, IsTrue, OnOk, MatchResult, Some};
ghost use Rattle.page_laws.specs.Calls.{PagesStay};
ghost use Rattle.page_laws.specs.Errors.{CountsTreeFault};
ghost use Rattle.page_laws.specs.Pages.{is_live, AreFree};
ghost use Rattle.bptree_node.specs.Nodes.{node_in, is_leaf};
ghost use Rattle.bptree_walk.specs.Courses.{first_ahead};
ghost use Rattle.bptree_walk.specs.Visits.{IsLost, IsMistaken, NamesLost};

use crate::ahead::Ahead;
use bptree_node::{NodeView, read_node};
use page_laws::{PAGE_SIZE, Pages, Root, Rule, TreeError};

/// The root's node, or None if the tree is empty.
pub(crate) fn first_ahead(root: Root) -> Option<Ahead>
    ensures { result ≡ first_ahead root.height root.page }
{
    if root.height == 0 {
        return None;
    }
    Some(Ahead {
        page: root.page,
        level: root.height - 1,
        parent: 1,
    })
}

/// Damaged, and names the parent, exactly if the node's page isn't live.
pub(crate) fn test_live<P: Pages>(pages: &P, next: Ahead) -> Result<(), TreeError>
    ensures live { MatchResult result (λ _. IsTrue (is_live (P.in_pool pages.now) (P.free pages.now) next.page))
        (IsLost (is_live (P.in_pool pages.now) (P.free pages.now)) next) }
    ensures free { AreFree (P.in_pool pages.now) (P.free pages.now) }
{
    if pages.is_live(next.page) {
        return Ok(());
    }
    Err(TreeError::Damaged {
        page: next.parent,
        rule: Rule::Page,
    })
}

/// Fills `page` with the node's page. Damaged, and names the parent, exactly if it isn't live.
pub(crate) fn fetch<P: Pages>(
    pages: &mut P,
    next: Ahead,
    page: &mut [u8; PAGE_SIZE],
) -> Result<(), TreeError>
    ensures data { IsTrue (P.is_known pages.old) → OnOk result (page.new ≡ P.page_at pages.old next.page) }
    ensures lost { NamesLost (is_live (P.in_pool pages.old) (P.free pages.old)) next result }
    ensures fetches { P.fetches pages.new ≤ P.fetches pages.old + 1 }
    ensures stay { PagesStay P.is_known P.has P.in_pool P.page_at P.free P.is_open P.put_pages P.calm pages.old pages.new }
    ensures fault { CountsTreeFault result (P.faults pages.old) (P.faults pages.new) }
{
    test_live(&*pages, next)?;
    pages.get(next.page, page)?;
    Ok(())
}

/// The node that the page is. Damaged, and names it, exactly if it isn't one of this level.
pub(crate) fn read_level(page: &[u8; PAGE_SIZE], next: Ahead) -> Result<NodeView<'_>, TreeError>
    ensures { MatchResult result (λ node. (node_in page.now ≡ Some node) × (is_leaf node ≡ (next.level == 0))) (IsMistaken next page.now) }
{
    match read_node(page) {
        Ok(node) if node.is_leaf() == (next.level == 0) => Ok(node),
        _ => Err(TreeError::Damaged {
            page: next.page,
            rule: Rule::Node,
        }),
    }
}
