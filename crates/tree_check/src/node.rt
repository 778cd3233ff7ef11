//! A node that is checked with all under it.
ghost use Rattle.std.specs.Prelude.{◌≡◌, ◌-◌, ◌<◌, IsTrue, IfOk, OnOk, ◌≤◌, length};
ghost use Rattle.page_laws.specs.Calls.{PagesStay};
ghost use Rattle.page_laws.specs.Errors.{CountsTreeFault};
ghost use Rattle.page_laws.specs.Pages.{is_live};
ghost use Rattle.tree_check.specs.Checks.{Checks};
ghost use Rattle.tree_check.specs.PageSets.{CoversPool, HasSameRange};

use crate::PageSet;
use crate::branch::check_branch;
use crate::leaf::check_leaf;
use bptree_edit::{branches_of, damaged, inner_part};
use bptree_node::{Boxes, Branch, Entry, Summary};
use page_laws::{PAGE_SIZE, Pages, Rule, TreeError};

/// Where a node is reached.
#[derive(Clone, Copy, Debug)]
pub(crate) struct Spot {
    /// The node's page.
    pub page: u32,
    /// Its level: leaves are at 0.
    pub level: u8,
    /// The page that names it: its parent's, or 1 for the root.
    pub parent: u32,
}

impl Spot {
    /// Where a branch leads to from an inner node that is reached here.
    fn below(self, branch: &Branch) -> Spot
        requires { 0 < self.level }
        ensures { result ≡ record { page = branch.now.child; level = self.level - 1; parent = self.page } }
    {
        Spot {
            page: branch.child,
            level: self.level - 1,
            parent: self.page,
        }
    }
}

/// A node that was found to be sound with all under it.
#[derive(Clone, Copy, Debug)]
pub(crate) struct Checked<S> {
    /// How many entries or branches it has.
    pub rows: usize,
    /// The summary of all entries under it.
    pub summary: S,
}

/// Checks a node and all under it. Each page is read once; the entries are added to those gathered, and
/// the pages to those used.
pub(crate) fn check_node<P: Pages, S: Summary, F: Boxes<S>>(
    pages: &mut P,
    at: Spot,
    boxes: &F,
    used: &mut PageSet,
    entries: &mut Vec<Entry>,
) -> Result<Checked<S>, TreeError>
    requires { CoversPool (P.in_pool pages.old) used.old }
    ensures checks { IsTrue (P.is_known pages.old)
        → Checks S.joined (F.entry_box boxes.now) (F.keys_of boxes.now) (P.page_at pages.old) (is_live (P.in_pool pages.old) (P.free pages.old)) at
        used.old used.new entries.old.items entries.new.items result }
    ensures made { IfOk result (λ checked. F.is_made boxes.now checked.summary) }
    ensures longer { OnOk result (length entries.old.items ≤ length entries.new.items) }
    ensures range { HasSameRange used.old used.new }
    ensures stay { PagesStay P.is_known P.has P.in_pool P.page_at P.free P.is_open P.put_pages P.calm pages.old pages.new }
    ensures fault { CountsTreeFault result (P.faults pages.old) (P.faults pages.new) }
{
    if !pages.is_live(at.page) {
        return Err(damaged(at.parent, Rule::Page));
    }
    if !used.insert(at.page) {
        return Err(damaged(at.parent, Rule::Page));
    }
    let mut page = [0; PAGE_SIZE];
    pages.get(at.page, &mut page)?;
    if at.level == 0 {
        return check_leaf(&page, at.page, boxes, entries);
    }
    let branches = branches_of(&page, at.page)?;
    let start = entries.len();
    for branch in branches.iter() {
        let from = entries.len();
        let child = check_node(pages, at.below(branch), boxes, used, entries)?;
        check_branch(
            branch,
            at,
            &entries[start..from],
            &entries[from..],
            &child,
            boxes,
        )?;
    }
    let Some(part) = inner_part(&branches, at.page, boxes) else {
        return Err(damaged(at.page, Rule::Box));
    };
    Ok(Checked {
        rows: branches.len(),
        summary: part.summary,
    })
}
