//! Nodes that were edited on a copy of their page.
ghost use Rattle.std.specs.Prelude.{◌≡◌, ◌<◌, IsTrue, Some, length};
ghost use Rattle.page_laws.specs.declared.pages.TheConstants.{CHANGE_LIMIT};
ghost use Rattle.bptree_node.specs.Nodes.{Node, node_in};
ghost use Rattle.bptree_edit.specs.Steps.{PagesGrow, IsWritten};

use page_laws::{PAGE_SIZE, Pages};

/// Makes page `n` the node that `page` is.
pub(crate) fn put_node<P: Pages>(pages: &mut P, n: u32, page: &[u8; PAGE_SIZE])
    requires open { IsTrue (P.is_open pages.old) }
    requires pool { IsTrue (P.in_pool pages.old n) }
    requires put { length (P.put_pages pages.old) < CHANGE_LIMIT }
    ensures written { (node : Node) → node_in page.now ≡ Some node → IsWritten n node (P.page_at pages.old) (P.page_at pages.new) }
    ensures free { P.free pages.new ≡ P.free pages.old }
    ensures pages { PagesGrow P.is_known P.has P.in_pool P.free P.is_open P.put_pages P.calm 0 1 pages.old pages.new }
    ensures faults { P.faults pages.new ≡ P.faults pages.old }
{
    pages.put(n, page);
}
