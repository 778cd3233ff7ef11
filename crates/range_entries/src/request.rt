//! A range over one collection, and its verdict on an entry.
ghost use Rattle.std.specs.Prelude.{◌≡◌, ℕ, ◌-◌, ◌^◌, ◌<◌, ◌∷◌, [], IsTrue, true, nat_le, IfOk, OnOk, length, if◌then◌else◌};
ghost use Rattle.curve_laws.specs.Grid.{IsKey};
ghost use Rattle.metric_laws.specs.Log.{LogExtends};
ghost use Rattle.object_file.specs.ObjectFile.{HasSlots};
ghost use Rattle.page_laws.specs.Calls.{PagesStay};
ghost use Rattle.page_laws.specs.Errors.{CountsTreeFault};
ghost use Rattle.page_laws.specs.Pages.{count_after};
ghost use Rattle.spb_edge.specs.Counts.{one_if};
ghost use Rattle.query_pass.specs.Verdicts.{was_measured};
ghost use Rattle.query_pass.specs.declared.verdict.Verdict.TheVariants as verdict;
ghost use Rattle.range_entries.specs.Entries.{HoldsEntry, CountsVerdict, TellsEntry, NamesEntryRule, verdict_at, object_at, pair_at};

use bptree_node::Entry;
use curve_laws::{Curve, Vect};
use metric_laws::Ruler;
use object_file::ObjectFile;
use page_laws::Pages;
use pivot_map::{PairTest, test_query};
use query_pass::Verdict;
use query_shelf::{QueryError, cell_of, read_object};
use spb_edge::Bytes;

/// A range over one collection of a shelf.
#[derive(Drop)]
pub struct RangeRequest<'a, C: Curve> {
    /// The slots of the objects.
    pub objects: &'a ObjectFile,
    /// The curve.
    pub curve: &'a C,
    /// The collection.
    pub collection: u8,
    /// The query's distances to the pivots: as many as the curve has coordinates.
    pub asked: &'a Vect,
    /// The query.
    pub q: &'a [u8],
    /// The radius.
    pub r: u32,
    ghost fits: { length asked.now ≡ C.axes curve.now },
}

impl<'a, C: Curve> RangeRequest<'a, C> {
    /// The verdict on the query and the object that an entry names. It reads the object, into `object`,
    /// and measures it, if the cell of the entry's key leaves it open.
    ///
    /// Damaged comes by page 1 and the rule `key` if the key is none of the curve, and as in `measure`. A
    /// fault comes from reading the object's page. At most one page is fetched and one distance
    /// computed.
    pub fn judge<P: Pages, R: Ruler>(
        &self,
        pages: &mut P,
        entry: &Entry,
        ruler: &mut R,
        object: &mut Bytes,
    ) -> Result<Verdict, QueryError>
        requires query { R.admitted (R.kind ruler.old) self.now.q.now }
        requires there { HasSlots (P.has pages.old) self.now.objects.now.cap }
        requires room { R.count ruler.old < 2 ^ 64 - 1 }
        ensures verdict { IsTrue (P.is_known pages.old)
            → IfOk result (λ v. v ≡ verdict_at (R.dist (R.kind ruler.old)) (C.cell_of self.now.curve.now) self.now.asked.now self.now.q.now self.now.r (P.page_at pages.old) entry.now) }
        ensures log { IsTrue (P.is_known pages.old)
            → IfOk result (λ v. LogExtends (R.log ruler.old) (R.log ruler.new) (if was_measured v then pair_at self.now.q.now (P.page_at pages.old) entry.now ∷ [] else [])) }
        ensures key { OnOk result (IsKey (C.axes self.now.curve.now) (C.bits self.now.curve.now) entry.now.key) }
        ensures holds { IsTrue (P.is_known pages.old)
            → IfOk result (λ v. was_measured v ≡ true → HoldsEntry (R.admitted (R.kind ruler.old)) (P.page_at pages.old) self.now.collection entry.now) }
        ensures count { CountsVerdict result (R.count ruler.old) (R.count ruler.new) }
        ensures kind { R.kind ruler.new ≡ R.kind ruler.old }
        ensures fetches { IfOk result (λ v. P.fetches pages.new ≡ count_after (P.fetches pages.old) (one_if (was_measured v))) }
        ensures tells { IsTrue (P.is_known pages.old)
            → TellsEntry (R.admitted (R.kind ruler.old)) (C.axes self.now.curve.now) (C.bits self.now.curve.now) self.now.objects.now (P.page_at pages.old) self.now.collection entry.now result }
        ensures names { NamesEntryRule self.now.objects.now result }
        ensures stay { PagesStay P.is_known P.has P.in_pool P.page_at P.free P.is_open P.put_pages P.calm pages.old pages.new }
        ensures fault { CountsTreeFault result (P.faults pages.old) (P.faults pages.new) }
    {
        let cell = cell_of(self.curve, entry.key)?;
        match test_query(self.asked, &cell, self.r) {
            PairTest::Apart => Ok(Verdict::Apart),
            PairTest::Sure => Ok(Verdict::Sure),
            PairTest::Open => self.measure(pages, entry, ruler, object),
        }
    }

    /// Reads the object that an entry names, into `object`, and measures it with the query.
    ///
    /// Damaged comes by the rule `slot`: by page 1 if the entry's slot is free, and by the slot's page if
    /// it holds no object of this collection and id that the ruler admits. A fault comes from reading
    /// that page. One page is fetched and one distance computed.
    pub fn measure<P: Pages, R: Ruler>(
        &self,
        pages: &mut P,
        entry: &Entry,
        ruler: &mut R,
        object: &mut Bytes,
    ) -> Result<Verdict, QueryError>
        requires query { R.admitted (R.kind ruler.old) self.now.q.now }
        requires there { HasSlots (P.has pages.old) self.now.objects.now.cap }
        requires room { R.count ruler.old < 2 ^ 64 - 1 }
        ensures verdict { IsTrue (P.is_known pages.old) → IfOk result (λ v. v ≡ verdict.Measured (nat_le (R.dist (R.kind ruler.old) self.now.q.now (object_at (P.page_at pages.old) entry.now)) self.now.r)) }
        ensures log { IsTrue (P.is_known pages.old) → OnOk result (LogExtends (R.log ruler.old) (R.log ruler.new) (pair_at self.now.q.now (P.page_at pages.old) entry.now ∷ [])) }
        ensures holds { IsTrue (P.is_known pages.old)
            → OnOk result (HoldsEntry (R.admitted (R.kind ruler.old)) (P.page_at pages.old) self.now.collection entry.now) }
        ensures measured { IfOk result (λ v. was_measured v ≡ true) }
        ensures count { CountsVerdict result (R.count ruler.old) (R.count ruler.new) }
        ensures kind { R.kind ruler.new ≡ R.kind ruler.old }
        ensures fetches { OnOk result (P.fetches pages.new ≡ count_after (P.fetches pages.old) 1) }
        ensures tells { IsTrue (P.is_known pages.old)
            → TellsEntry (R.admitted (R.kind ruler.old)) (C.axes self.now.curve.now) (C.bits self.now.curve.now) self.now.objects.now (P.page_at pages.old) self.now.collection entry.now result }
        ensures names { NamesEntryRule self.now.objects.now result }
        ensures stay { PagesStay P.is_known P.has P.in_pool P.page_at P.free P.is_open P.put_pages P.calm pages.old pages.new }
        ensures fault { CountsTreeFault result (P.faults pages.old) (P.faults pages.new) }
    {
        read_object(pages, self.objects, self.collection, entry, ruler, object)?;
        let within = ruler.measure(self.q, object.as_slice()) <= self.r;
        Ok(Verdict::Measured(within))
    }
}
