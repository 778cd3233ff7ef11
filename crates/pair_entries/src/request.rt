//! A join of two collections, or of one with itself, and its verdict on a pair of entries.
ghost use Rattle.std.specs.Prelude.{◌≡◌, ◌+◌, ◌*◌, ◌-◌, ◌^◌, ◌<◌, ◌∷◌, [], IsTrue, true, nat_le, IfOk, OnOk, length, if◌then◌else◌};
ghost use Rattle.metric_laws.specs.Log.{LogExtends};
ghost use Rattle.object_file.specs.ObjectFile.{HasSlots};
ghost use Rattle.page_laws.specs.Calls.{PagesStay};
ghost use Rattle.page_laws.specs.Errors.{CountsTreeFault};
ghost use Rattle.page_laws.specs.Pages.{count_after};
ghost use Rattle.spb_edge.specs.Counts.{one_if};
ghost use Rattle.query_pass.specs.Pairs.{verdict_of_pair, pair_objects};
ghost use Rattle.query_pass.specs.Verdicts.{was_measured};
ghost use Rattle.query_pass.specs.declared.verdict.Verdict.TheVariants as verdict;
ghost use Rattle.range_entries.specs.Entries.{CountsVerdict, object_at};
ghost use Rattle.pair_entries.specs.PairEntries.{rows_at, HoldsPair, TellsPair, NamesSlotRule};

use bptree_node::Entry;
use join_window::Reaching;
use metric_laws::Ruler;
use object_file::ObjectFile;
use page_laws::Pages;
use pivot_map::{PairTest, Steps, pair_test};
use query_pass::Verdict;
use query_shelf::{QueryError, read_object};
use spb_edge::Bytes;
use std::alloc::Global;
use std::sync::ledger::Ledger;

/// The objects of a pair that were read last.
#[derive(Drop)]
pub struct PairObjects {
    left: Bytes,
    right: Bytes,
}

impl PairObjects {
    /// No objects yet. It takes no memory.
    pub fn new(alloc: Global) -> PairObjects {
        PairObjects {
            left: Bytes::from(Vec::new(alloc)),
            right: Bytes::from(Vec::new(alloc)),
        }
    }
}

/// A join of two collections of a shelf, or of one with itself.
#[derive(Clone, Copy, Drop)]
pub struct JoinRequest<'a> {
    /// The slots of the objects.
    pub objects: &'a ObjectFile,
    /// The collection of the entries on the left.
    pub left: u8,
    /// The collection of the entries on the right.
    pub right: u8,
    /// The radius.
    pub r: u32,
}

impl<'a> JoinRequest<'a> {
    /// The verdict on a pair of entries, whose cells have the same length. The test of the cells is one step. If it
    /// leaves the pair open, both objects are read, into `objects`, and their distance is measured.
    ///
    /// Damaged comes as in `measure`, and a fault from reading the page of an object. Two pages are fetched for a pair
    /// that is measured, and none for another.
    pub fn judge<P: Pages, R: Ruler, L: Ledger>(
        &self,
        pages: &mut P,
        left: &Reaching,
        right: &Reaching,
        ruler: &mut R,
        steps: &mut Steps<L>,
        objects: &mut PairObjects,
    ) -> Result<Verdict, QueryError>
        requires cells { length left.now.cell ≡ length right.now.cell }
        requires there { HasSlots (P.has pages.old) self.now.objects.now.cap }
        requires room { R.count ruler.old < 2 ^ 64 - 1 }
        ensures verdict { IsTrue (P.is_known pages.old)
            → IfOk result (λ v. v ≡ verdict_of_pair (R.dist (R.kind ruler.old)) self.now.r (rows_at (P.page_at pages.old) (left.now, right.now))) }
        ensures log { IsTrue (P.is_known pages.old)
            → IfOk result (λ v. LogExtends (R.log ruler.old) (R.log ruler.new)
            (if was_measured v then pair_objects (rows_at (P.page_at pages.old) (left.now, right.now)) ∷ [] else [])) }
        ensures holds { IsTrue (P.is_known pages.old)
            → IfOk result (λ v. was_measured v ≡ true → HoldsPair (R.admitted (R.kind ruler.old)) (P.page_at pages.old) self.now.left self.now.right (left.now.entry, right.now.entry)) }
        ensures steps { steps.new ≡ steps.old + 1 }
        ensures count { CountsVerdict result (R.count ruler.old) (R.count ruler.new) }
        ensures kind { R.kind ruler.new ≡ R.kind ruler.old }
        ensures fetches { IfOk result (λ v. P.fetches pages.new ≡ count_after (P.fetches pages.old) (2 * one_if (was_measured v))) }
        ensures tells { IsTrue (P.is_known pages.old)
            → TellsPair (R.admitted (R.kind ruler.old)) self.now.objects.now (P.page_at pages.old) self.now.left self.now.right (left.now.entry, right.now.entry) result }
        ensures names { NamesSlotRule self.now.objects.now result }
        ensures stay { PagesStay P.is_known P.has P.in_pool P.page_at P.free P.is_open P.put_pages P.calm pages.old pages.new }
        ensures fault { CountsTreeFault result (P.faults pages.old) (P.faults pages.new) }
    {
        match pair_test(&left.cell, &right.cell, self.r, steps) {
            PairTest::Apart => Ok(Verdict::Apart),
            PairTest::Sure => Ok(Verdict::Sure),
            PairTest::Open => self.measure(pages, &left.entry, &right.entry, ruler, objects),
        }
    }

    /// Reads the objects that two entries name, into `objects`, and measures their distance.
    ///
    /// Damaged comes by the rule `slot`: by page 1 if the slot of an entry is free, and by the slot's page if it holds
    /// no object of the entry's collection and id that the ruler admits. The left object is read first. A fault comes
    /// from reading those pages. Two pages are fetched and one distance computed.
    pub fn measure<P: Pages, R: Ruler>(
        &self,
        pages: &mut P,
        left: &Entry,
        right: &Entry,
        ruler: &mut R,
        objects: &mut PairObjects,
    ) -> Result<Verdict, QueryError>
        requires there { HasSlots (P.has pages.old) self.now.objects.now.cap }
        requires room { R.count ruler.old < 2 ^ 64 - 1 }
        ensures verdict { IsTrue (P.is_known pages.old)
            → IfOk result (λ v. v ≡ verdict.Measured (nat_le (R.dist (R.kind ruler.old) (object_at (P.page_at pages.old) left.now) (object_at (P.page_at pages.old) right.now)) self.now.r)) }
        ensures log { IsTrue (P.is_known pages.old)
            → OnOk result (LogExtends (R.log ruler.old) (R.log ruler.new) ((object_at (P.page_at pages.old) left.now, object_at (P.page_at pages.old) right.now) ∷ [])) }
        ensures holds { IsTrue (P.is_known pages.old)
            → OnOk result (HoldsPair (R.admitted (R.kind ruler.old)) (P.page_at pages.old) self.now.left self.now.right (left.now, right.now)) }
        ensures measured { IfOk result (λ v. was_measured v ≡ true) }
        ensures count { CountsVerdict result (R.count ruler.old) (R.count ruler.new) }
        ensures kind { R.kind ruler.new ≡ R.kind ruler.old }
        ensures fetches { OnOk result (P.fetches pages.new ≡ count_after (P.fetches pages.old) 2) }
        ensures tells { IsTrue (P.is_known pages.old)
            → TellsPair (R.admitted (R.kind ruler.old)) self.now.objects.now (P.page_at pages.old) self.now.left self.now.right (left.now, right.now) result }
        ensures names { NamesSlotRule self.now.objects.now result }
        ensures stay { PagesStay P.is_known P.has P.in_pool P.page_at P.free P.is_open P.put_pages P.calm pages.old pages.new }
        ensures fault { CountsTreeFault result (P.faults pages.old) (P.faults pages.new) }
    {
        read_object(
            pages,
            self.objects,
            self.left,
            left,
            ruler,
            &mut objects.left,
        )?;
        read_object(
            pages,
            self.objects,
            self.right,
            right,
            ruler,
            &mut objects.right,
        )?;
        let within = ruler.measure(objects.left.as_slice(), objects.right.as_slice()) <= self.r;
        Ok(Verdict::Measured(within))
    }
}
