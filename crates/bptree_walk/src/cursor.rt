//! All entries in order, one at a time.
ghost use Rattle.std.specs.Prelude.{◌≡◌, ◌++◌, ◌-◌, ◌≤◌, [], ℕ, Bool, IsTrue, IsOk, IfOk, OnOk, List, filter, length, option_to_list};
ghost use Rattle.page_laws.specs.Calls.{PagesStay};
ghost use Rattle.page_laws.specs.Errors.{CountsTreeFault, IsNotDamaged};
ghost use Rattle.page_laws.specs.Pages.{is_live, count_after};
ghost use Rattle.page_laws.specs.declared.root.Root.{Root};
ghost use Rattle.bptree_node.specs.declared.layout.TheConstants.{HEIGHT_LIMIT};
ghost use Rattle.bptree_node.specs.declared.rows.Entry.{Entry};
ghost use Rattle.bptree_node.specs.Trees.{IsBPlusTree, list_at, pages_at};
ghost use Rattle.bptree_walk.specs.Courses as words;
ghost use Rattle.bptree_walk.specs.Courses.{TakesFirst, GivesNext, Falls, AreLive, IsPartOf, IsSoundCourse, MOST_IN_TREE, first_ahead};
ghost use Rattle.bptree_walk.specs.Damage.{NamesWalkRule, IsDamageOf};
ghost use Rattle.bptree_walk.specs.declared.visit.TheConstants.{AHEAD_LIMIT};
ghost use Rattle.bptree_walk.specs.Steps.{Steps, CountsFetches, VisitsOne, IsOver};

use crate::Entries;
use crate::ahead::Ahead;
use crate::everything::Everything;
use crate::leaf::LeafReader;
use crate::node::{first_ahead, test_live};
use crate::visit::AHEAD_LIMIT;
use bptree_node::{Entry, Region};
use page_laws::{Pages, Root, TreeError};
use smallvec::SmallVec;
use spb_edge::Memory;
use std::alloc::Global;
use std::marker::Model;

/// A course through a tree, from left to right, that visits each node once. It keeps the page of the
/// leaf that it is in, and the nodes ahead, at most 14 of each level, and takes no memory after it was
/// made.
///
/// Between `begin` and the calls of `next_entry` that follow it the pages stay as they are. After an
/// error it is begun again.
#[derive(Debug, Drop)]
pub struct Cursor {
    ahead: SmallVec<Ahead, AHEAD_LIMIT>,
    leaf: LeafReader,
    fetched: u32,
}

impl Model for Cursor {
    ghost use Rattle.bptree_walk.specs.Courses.{Course};
    ghost use Rattle.bptree_walk.specs.Cursors.{course_of, IsCursor};

    ghost Value = { Course };

    ghost view = { course_of };

    ghost invariant = { IsCursor };
}

impl Cursor {
    /// A cursor that has nothing to give until it is begun. It takes no memory, and doesn't fail.
    pub fn new(alloc: Global) -> Result<Cursor, Memory>
        ensures course { IfOk result (λ course. course ≡ words.no_course) }
        ensures there { IsOk result }
    {
        Ok(Cursor::empty(alloc))
    }

    /// A cursor that has nothing to give.
    pub(crate) fn empty(alloc: Global) -> Cursor
        ensures { result ≡ words.no_course }
    {
        Cursor {
            ahead: SmallVec::new(alloc),
            leaf: LeafReader::new(),
            fetched: 0,
        }
    }

    /// Begins before the first entry of the tree with this root.
    pub fn begin(&mut self, root: Root)
        requires { root.height ≤ HEIGHT_LIMIT }
        ensures course { self.new ≡ words.begun root }
        ensures list { (pages : ℕ → List ℕ) → words.list_left pages self.new ≡ list_at pages root }
        ensures nodes { (pages : ℕ → List ℕ) → words.nodes_left pages self.new ≡ length (pages_at pages root) }
        ensures fetched { self.new.fetched ≡ 0 }
        ensures limit { words.most_left self.new ≤ MOST_IN_TREE }
        ensures part { (pages : ℕ → List ℕ) → IsPartOf pages root self.new }
    {
        put_first(&mut self.ahead, root);
        self.leaf.clear();
        self.fetched = 0;
    }

    /// The next entry, or None exactly after the last one.
    ///
    /// Over every disk, whatever the pages hold, the number `most_left` falls with each entry, and
    /// `fetches` rises by as much as the number of nodes fetched since `begin`, which after None is that
    /// of the tree's nodes. Damaged comes only if a page isn't a node of its level (`node`), or names a
    /// child that isn't live (`page`; for the root, page 1 is named), and so never over a tree whose
    /// pages are live. A node that names such a child is told of in the call that visits it. Memory comes
    /// only as `get` answers it.
    pub fn next_entry<P: Pages>(&mut self, pages: &mut P) -> Result<Option<Entry>, TreeError>
        ensures gives { IsTrue (P.is_known pages.old) → GivesNext result (words.list_left (P.page_at pages.old) self.old) (words.list_left (P.page_at pages.old) self.new) }
        ensures nodes { IsTrue (P.is_known pages.old)
            → OnOk result (words.nodes_fetched (P.page_at pages.old) self.new ≡ words.nodes_fetched (P.page_at pages.old) self.old) }
        ensures ended { (pages : ℕ → List ℕ) → words.EndsAt result (words.nodes_left pages self.new) }
        ensures limit { Falls result (words.most_left self.old) (words.most_left self.new) }
        ensures fetched { self.old.fetched ≤ self.new.fetched }
        ensures fetches { P.fetches pages.new ≡ count_after (P.fetches pages.old) (self.new.fetched - self.old.fetched) }
        ensures sound { IsTrue (P.is_known pages.old) → IsSoundCourse (P.page_at pages.old) (is_live (P.in_pool pages.old) (P.free pages.old)) self.old
            → IsNotDamaged result × OnOk result (IsSoundCourse (P.page_at pages.old) (is_live (P.in_pool pages.old) (P.free pages.old)) self.new) }
        ensures part { IsTrue (P.is_known pages.old) → (root : Root) → IsPartOf (P.page_at pages.old) root self.old
            → IsDamageOf (P.page_at pages.old) (is_live (P.in_pool pages.old) (P.free pages.old)) root result × OnOk result (IsPartOf (P.page_at pages.old) root self.new) }
        ensures live { IsTrue (P.is_known pages.old) → AreLive (is_live (P.in_pool pages.old) (P.free pages.old)) self.old.ahead
            → OnOk result (AreLive (is_live (P.in_pool pages.old) (P.free pages.old)) self.new.ahead) }
        ensures names { NamesWalkRule result }
        ensures stay { PagesStay P.is_known P.has P.in_pool P.page_at P.free P.is_open P.put_pages P.calm pages.old pages.new }
        ensures fault { CountsTreeFault result (P.faults pages.old) (P.faults pages.new) }
    {
        self.next_in(pages, &Everything)
    }

    /// The next entry whose key the region has, of the leaves that a walk of the region visits, or None
    /// exactly after the last one. What [`next_entry`](Cursor::next_entry) says of errors, of fetches and
    /// of the number that falls holds here too.
    pub fn next_within<P: Pages, G: Region>(
        &mut self,
        pages: &mut P,
        region: &G,
    ) -> Result<Option<Entry>, TreeError>
        ensures gives { IsTrue (P.is_known pages.old)
            → GivesNext result (words.walk_left (G.meets_box region.now) (G.has_key region.now) (P.page_at pages.old) self.old)
            (words.walk_left (G.meets_box region.now) (G.has_key region.now) (P.page_at pages.old) self.new) }
        ensures nodes { IsTrue (P.is_known pages.old)
            → OnOk result (words.visits_fetched (G.meets_box region.now) (P.page_at pages.old) self.new
            ≡ words.visits_fetched (G.meets_box region.now) (P.page_at pages.old) self.old) }
        ensures ended { IsOver result self.new }
        ensures limit { Falls result (words.most_left self.old) (words.most_left self.new) }
        ensures fetches { CountsFetches self.old self.new (P.fetches pages.old) (P.fetches pages.new) }
        ensures sound { IsTrue (P.is_known pages.old) → IsSoundCourse (P.page_at pages.old) (is_live (P.in_pool pages.old) (P.free pages.old)) self.old
            → IsNotDamaged result × OnOk result (IsSoundCourse (P.page_at pages.old) (is_live (P.in_pool pages.old) (P.free pages.old)) self.new) }
        ensures part { IsTrue (P.is_known pages.old) → (root : Root) → IsPartOf (P.page_at pages.old) root self.old
            → IsDamageOf (P.page_at pages.old) (is_live (P.in_pool pages.old) (P.free pages.old)) root result × OnOk result (IsPartOf (P.page_at pages.old) root self.new) }
        ensures names { NamesWalkRule result }
        ensures stay { PagesStay P.is_known P.has P.in_pool P.page_at P.free P.is_open P.put_pages P.calm pages.old pages.new }
        ensures fault { CountsTreeFault result (P.faults pages.old) (P.faults pages.new) }
    {
        while let Some(entry) = self.next_in(pages, region)? {
            if region.has(entry.key) {
                return Ok(Some(entry));
            }
        }
        Ok(None)
    }

    /// The next entry of the leaves that a walk of the region visits, or None exactly after the last one.
    pub(crate) fn next_in<P: Pages, G: Region>(
        &mut self,
        pages: &mut P,
        region: &G,
    ) -> Result<Option<Entry>, TreeError>
        ensures steps { IsTrue (P.is_known pages.old)
            → Steps (P.page_at pages.old) (is_live (P.in_pool pages.old) (P.free pages.old)) (G.meets_box region.now) (G.has_key region.now) option_to_list result self.old self.new }
        ensures ended { IsOver result self.new }
        ensures limit { Falls result (words.most_left self.old) (words.most_left self.new) }
        ensures fetches { CountsFetches self.old self.new (P.fetches pages.old) (P.fetches pages.new) }
        ensures names { NamesWalkRule result }
        ensures stay { PagesStay P.is_known P.has P.in_pool P.page_at P.free P.is_open P.put_pages P.calm pages.old pages.new }
        ensures fault { CountsTreeFault result (P.faults pages.old) (P.faults pages.new) }
    {
        loop {
            if let Some(entry) = self.take() {
                return Ok(Some(entry));
            }
            if !self.visit_next(pages, region)? {
                return Ok(None);
            }
        }
    }

    /// The next entry of the leaf that the cursor is in.
    fn take(&mut self) -> Option<Entry>
        ensures entries { TakesFirst result self.old.entries self.new.entries }
        ensures ahead { self.new.ahead ≡ self.old.ahead }
        ensures fetched { self.new.fetched ≡ self.old.fetched }
    {
        self.leaf.next()
    }

    /// Adds what is left of the leaf that the cursor is in, as far as the region has it, to what was found.
    pub(crate) fn give_leaf<G: Region>(
        &mut self,
        region: &G,
        found: &mut Entries,
    ) -> Result<(), Memory>
        ensures found { OnOk result (found.new ≡ found.old ++ filter (λ (e : Entry). G.has_key region.now e.key) self.old.entries) }
        ensures entries { OnOk result (self.new.entries ≡ []) }
        ensures ahead { self.new.ahead ≡ self.old.ahead }
        ensures fetched { self.new.fetched ≡ self.old.fetched }
    {
        self.leaf.gather(region, found)?;
        self.leaf.clear();
        Ok(())
    }

    /// Visits the next node, or answers that none is ahead.
    pub(crate) fn visit_next<P: Pages, G: Region>(
        &mut self,
        pages: &mut P,
        region: &G,
    ) -> Result<bool, TreeError>
        requires { self.old.entries ≡ [] }
        ensures steps { IsTrue (P.is_known pages.old)
            → Steps (P.page_at pages.old) (is_live (P.in_pool pages.old) (P.free pages.old)) (G.meets_box region.now) (G.has_key region.now) (λ _. []) result self.old self.new }
        ensures visits { VisitsOne result self.old self.new }
        ensures limit { OnOk result (words.most_left self.new ≤ words.most_left self.old) }
        ensures fetches { CountsFetches self.old self.new (P.fetches pages.old) (P.fetches pages.new) }
        ensures names { NamesWalkRule result }
        ensures stay { PagesStay P.is_known P.has P.in_pool P.page_at P.free P.is_open P.put_pages P.calm pages.old pages.new }
        ensures fault { CountsTreeFault result (P.faults pages.old) (P.faults pages.new) }
    {
        let Some(next) = self.ahead.pop() else {
            return Ok(false);
        };
        test_live(&*pages, next)?;
        self.fetched += 1;
        self.leaf.visit(pages, next, region, &mut self.ahead)?;
        Ok(true)
    }
}

/// Puts the root's node ahead, and nothing else.
fn put_first(ahead: &mut SmallVec<Ahead, AHEAD_LIMIT>, root: Root)
    requires { ahead.old.capacity ≡ AHEAD_LIMIT }
    ensures items { ahead.new.items ≡ option_to_list (first_ahead root.height root.page) }
    ensures capacity { ahead.new.capacity ≡ AHEAD_LIMIT }
{
    ahead.clear();
    if let Some(first) = first_ahead(root) {
        ahead.push_reserved(first);
    }
}

/// That a course which begins at the root of a tree with live pages is sound, as a contract: the call
/// does nothing.
pub fn courses_begin_sound()
    ensures { (pages : ℕ → List ℕ) (live : ℕ → Bool) (root : Root) → IsBPlusTree pages live root → IsSoundCourse pages live (words.begun root) }
{}
