//! An entry that comes, and the pairs of it with those before it.
ghost use Rattle.std.specs.Prelude.{◌≡◌, ℕ, ◌+◌, ◌*◌, ◌-◌, ◌^◌, ◌<◌, ◌≤◌, IsTrue, IfOk, OnOk, List, length, map, filter, All};
ghost use Rattle.curve_laws.specs.Grid.{IsKey};
ghost use Rattle.metric_laws.specs.Calls.{RulerContinues};
ghost use Rattle.object_file.specs.ObjectFile.{HasSlots};
ghost use Rattle.page_laws.specs.Calls.{PagesStay};
ghost use Rattle.page_laws.specs.Errors.{CountsTreeFault};
ghost use Rattle.page_laws.specs.Pages.{count_after};
ghost use Rattle.bptree_node.specs.declared.rows.Entry.{Entry};
ghost use Rattle.join_window.specs.WindowPairs.{reaches};
ghost use Rattle.join_window.specs.declared.window.Reaching.{Reaching};
ghost use Rattle.join_step.specs.Meetings.{pairs_with, Tallies, GoesOver};
ghost use Rattle.range_entries.specs.Entries.{NamesEntryRule};
ghost use Rattle.join_step.specs.Damage.{TellsKey, TellsPairs, TellsMeeting};
ghost use Rattle.join_step.specs.Meetings as words;

use crate::Placing;
use bptree_node::Entry;
use join_window::{Reaching, Window, reach};
use metric_laws::Ruler;
use page_laws::Pages;
use pair_entries::{JoinRequest, PairObjects};
use pivot_map::Steps;
use query_pass::Found;
use query_shelf::{QueryError, cell_of};
use std::sync::ledger::Ledger;
use z_curve::ZCurve;

/// The entry with its cell and how far it reaches. Damaged comes exactly if its key is none of the curve, by the rule
/// `key` and page 1, since the entry's leaf isn't known.
fn reaching(curve: &ZCurve, entry: Entry, r: u32) -> Result<Reaching, QueryError>
    ensures is { IfOk result (λ e. e ≡ words.reaching curve.now.n curve.now.b r entry) }
    ensures key { OnOk result (IsKey curve.now.n curve.now.b entry.key) }
    ensures axes { IfOk result (λ e. length e.cell ≡ curve.now.n) }
    ensures tells { TellsKey curve.now.n curve.now.b entry result }
{
    let cell = cell_of(curve, entry.key)?;
    Ok(Reaching {
        upper: reach(curve, &cell, r),
        entry,
        cell,
    })
}

/// Judges the pairs of a later entry with each of those held, and notes the verdicts. No cell may have another length
/// than the later entry's.
///
/// Each pair is one step. Two pages are fetched for each pair that is measured.
fn judge_all<P: Pages, R: Ruler, L: Ledger>(
    request: &JoinRequest,
    placing: Placing,
    held: &[Reaching],
    later: &Reaching,
    pages: &mut P,
    ruler: &mut R,
    steps: &mut Steps<L>,
    found: &mut Found<(u32, u32)>,
    objects: &mut PairObjects,
) -> Result<(), QueryError>
    requires cells { All (λ (h : Reaching). length h.cell ≡ length later.now.cell) held.now }
    requires there { HasSlots (P.has pages.old) request.now.objects.now.cap }
    requires room { R.count ruler.old + length held.now < 2 ^ 64 }
    requires evals { found.old.evals + length held.now < 2 ^ 64 }
    requires sure { found.old.sure + length held.now < 2 ^ 64 }
    ensures goes { IsTrue (P.is_known pages.old)
        → OnOk result (GoesOver (R.dist (R.kind ruler.old)) request.now.r (P.page_at pages.old) (pairs_with placing later.now held.now) found.old found.new
        (R.count ruler.old) (R.log ruler.old) (R.count ruler.new) (R.log ruler.new)) }
    ensures tallies { OnOk result (Tallies (length held.now) found.old found.new (R.count ruler.old) (R.count ruler.new)) }
    ensures steps { OnOk result (steps.new ≡ steps.old + length held.now) }
    ensures fetches { OnOk result (P.fetches pages.new ≡ count_after (P.fetches pages.old) (2 * (found.new.evals - found.old.evals))) }
    ensures ruler { RulerContinues R.kind R.count ruler.old ruler.new }
    ensures tells { IsTrue (P.is_known pages.old)
        → TellsPairs (R.admitted (R.kind ruler.old)) request.now.objects.now (P.page_at pages.old) request.now.left request.now.right placing later.now held.now result }
    ensures names { NamesEntryRule request.now.objects.now result }
    ensures stay { PagesStay P.is_known P.has P.in_pool P.page_at P.free P.is_open P.put_pages P.calm pages.old pages.new }
    ensures fault { CountsTreeFault result (P.faults pages.old) (P.faults pages.new) }
{
    for earlier in held {
        let (left, right) = placing.pair(earlier, later);
        let verdict = request.judge(pages, left, right, ruler, steps, objects)?;
        found.note((left.entry.id, right.entry.id), verdict)?;
    }
    Ok(())
}

/// Lets the entries go that don't reach the key of the one that comes, and judges the pairs of it with the others. The
/// answer is the entry with its cell and how far it reaches.
///
/// Damaged comes by page 1 and the rule `key` if its key is none of the curve, and by the slots of a pair that has to
/// be measured.
pub fn meet<P: Pages, R: Ruler, L: Ledger>(
    request: &JoinRequest,
    curve: &ZCurve,
    placing: Placing,
    window: &mut Window,
    entry: Entry,
    pages: &mut P,
    ruler: &mut R,
    steps: &mut Steps<L>,
    found: &mut Found<(u32, u32)>,
    objects: &mut PairObjects,
) -> Result<Reaching, QueryError>
    requires cells { All (λ (h : Reaching). length h.cell ≡ curve.now.n) window.old }
    requires there { HasSlots (P.has pages.old) request.now.objects.now.cap }
    requires room { R.count ruler.old + length window.old < 2 ^ 64 }
    requires evals { found.old.evals + length window.old < 2 ^ 64 }
    requires sure { found.old.sure + length window.old < 2 ^ 64 }
    ensures is { IfOk result (λ e. e ≡ words.reaching curve.now.n curve.now.b request.now.r entry) }
    ensures axes { IfOk result (λ e. length e.cell ≡ curve.now.n) }
    ensures window { OnOk result (window.new ≡ filter (reaches entry.key) window.old) }
    ensures goes { IsTrue (P.is_known pages.old)
        → OnOk result (GoesOver (R.dist (R.kind ruler.old)) request.now.r (P.page_at pages.old)
        (pairs_with placing (words.reaching curve.now.n curve.now.b request.now.r entry) (filter (reaches entry.key) window.old)) found.old found.new
        (R.count ruler.old) (R.log ruler.old) (R.count ruler.new) (R.log ruler.new)) }
    ensures tallies { OnOk result (Tallies (length window.old) found.old found.new (R.count ruler.old) (R.count ruler.new)) }
    ensures steps { OnOk result (steps.new ≡ steps.old + length (filter (reaches entry.key) window.old)) }
    ensures fetches { OnOk result (P.fetches pages.new ≡ count_after (P.fetches pages.old) (2 * (found.new.evals - found.old.evals))) }
    ensures ruler { RulerContinues R.kind R.count ruler.old ruler.new }
    ensures tells { IsTrue (P.is_known pages.old)
        → TellsMeeting (R.admitted (R.kind ruler.old)) curve.now.n curve.now.b request.now.r request.now.objects.now (P.page_at pages.old)
        request.now.left request.now.right placing entry (filter (reaches entry.key) window.old) result }
    ensures names { NamesEntryRule request.now.objects.now result }
    ensures stay { PagesStay P.is_known P.has P.in_pool P.page_at P.free P.is_open P.put_pages P.calm pages.old pages.new }
    ensures fault { CountsTreeFault result (P.faults pages.old) (P.faults pages.new) }
{
    let later = reaching(curve, entry, request.r)?;
    window.keep_reaching(entry.key);
    judge_all(
        request,
        placing,
        window.entries(),
        &later,
        pages,
        ruler,
        steps,
        found,
        objects,
    )?;
    Ok(later)
}
