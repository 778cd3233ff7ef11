//! The entries of a leaf, read where they stand.
ghost use Rattle.std.specs.Prelude.{◌≡◌, ◌<◌, ◌≤◌, ◌++◌, [], IsTrue, OnOk, IfErr, drop, filter, length, take};
ghost use Rattle.smallvec.specs.SmallVec.{HasRoomFor};
ghost use Rattle.page_laws.specs.Calls.{PagesStay};
ghost use Rattle.page_laws.specs.Errors.{CountsTreeFault};
ghost use Rattle.page_laws.specs.Pages.{is_live, risen};
ghost use Rattle.bptree_node.specs.declared.layout.TheConstants.{MOST_BRANCHES};
ghost use Rattle.bptree_node.specs.declared.rows.Entry.{Entry};
ghost use Rattle.bptree_node.specs.Nodes.{node_in};
ghost use Rattle.bptree_node.specs.Trees.{node_entries};
ghost use Rattle.bptree_walk.specs.Courses.{TakesFirst};
ghost use Rattle.bptree_walk.specs.Damage.{NamesWalkRule};
ghost use Rattle.bptree_walk.specs.Visits.{IsVisited, IsVisitCause, GoesDeeper};

use crate::Entries;
use crate::ahead::Ahead;
use crate::visit::{AHEAD_LIMIT, open_node};
use bptree_node::{Entry, Region, leaf_entry};
use page_laws::{PAGE_SIZE, Pages, TreeError};
use smallvec::SmallVec;
use spb_edge::Memory;
use std::marker::Model;

/// The entries of a leaf from a place on, read where they stand on its page. Contracts see the list of
/// them.
#[derive(Debug, Drop)]
pub(crate) struct LeafReader {
    page: [u8; PAGE_SIZE],
    at: usize,
    count: usize,
}

impl Model for LeafReader {
    ghost use Rattle.std.specs.Prelude.{List};
    ghost use Rattle.bptree_node.specs.declared.rows.Entry.{Entry};

    ghost Value = { List Entry };

    ghost use Rattle.bptree_walk.specs.Leaves.{entries_left, IsLeafReader};

    ghost view = { entries_left };

    ghost invariant = { IsLeafReader };
}

impl LeafReader {
    /// None.
    pub(crate) fn new() -> LeafReader
        ensures { result ≡ [] }
    {
        LeafReader {
            page: [0; PAGE_SIZE],
            at: 0,
            count: 0,
        }
    }

    /// The next one.
    pub(crate) fn next(&mut self) -> Option<Entry>
        ensures { TakesFirst result self.old self.new }
    {
        if self.at == self.count {
            return None;
        }
        let entry = leaf_entry(&self.page, self.at);
        self.at += 1;
        Some(entry)
    }

    /// Visits a node: its entries are there then, if it is a leaf, and if it is an inner node, the children
    /// whose boxes meet the region are put ahead, so that the first of them is the next one. It fetches
    /// one page.
    ///
    /// Damaged if the page isn't a node of its level, or names a child of these that isn't live.
    pub(crate) fn visit<P: Pages, G: Region>(
        &mut self,
        pages: &mut P,
        next: Ahead,
        region: &G,
        ahead: &mut SmallVec<Ahead, AHEAD_LIMIT>,
    ) -> Result<(), TreeError>
        requires there { IsTrue (P.has pages.old next.page) }
        requires room { 0 < next.level → HasRoomFor ahead.old MOST_BRANCHES }
        ensures visited { OnOk result (IsVisited (P.is_known pages.old) (P.page_at pages.old next.page) (is_live (P.in_pool pages.old) (P.free pages.old)) (G.meets_box region.now) next self.new ahead.old.items ahead.new.items) }
        ensures damage { IsTrue (P.is_known pages.old) → IfErr result (IsVisitCause (is_live (P.in_pool pages.old) (P.free pages.old)) next (P.page_at pages.old next.page)) }
        ensures names { NamesWalkRule result }
        ensures deeper { GoesDeeper next.level ahead.old.items ahead.new.items }
        ensures capacity { ahead.new.capacity ≡ ahead.old.capacity }
        ensures fetches { P.fetches pages.new ≡ risen (P.fetches pages.old) 1 }
        ensures stay { PagesStay P.is_known P.has P.in_pool P.page_at P.free P.is_open P.put_pages P.calm pages.old pages.new }
        ensures fault { CountsTreeFault result (P.faults pages.old) (P.faults pages.new) }
    {
        self.at = 0;
        self.count = 0;
        pages.get(next.page, &mut self.page)?;
        self.count = open_node(&*pages, &self.page, next, region, ahead)?;
        Ok(())
    }

    /// Adds those whose keys the region has to those that were found.
    pub(crate) fn gather<G: Region>(&self, region: &G, found: &mut Entries) -> Result<(), Memory>
        ensures { OnOk result (found.new ≡ found.old ++ filter (λ (e : Entry). G.has_key region.now e.key) self.now) }
    {
        gather_between(&self.page, self.at, self.count, region, found)
    }

    /// Leaves none.
    pub(crate) fn clear(&mut self)
        ensures { self.new ≡ [] }
    {
        self.at = self.count;
    }
}

/// Adds the entries of a leaf from a place on and below another one, as far as the region has their keys,
/// to those that were found.
fn gather_between<G: Region>(
    page: &[u8; PAGE_SIZE],
    at: usize,
    end: usize,
    region: &G,
    found: &mut Entries,
) -> Result<(), Memory>
    requires order { at ≤ end }
    requires there { end ≤ length (node_entries (node_in page.now)) }
    ensures { OnOk result (found.new ≡ found.old ++ filter (λ (e : Entry). G.has_key region.now e.key) (drop at (take end (node_entries (node_in page.now))))) }
{
    for i in at..end {
        found.keep(region, leaf_entry(page, i))?;
    }
    Ok(())
}
