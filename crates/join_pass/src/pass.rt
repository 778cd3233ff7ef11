//! A pass over the pairs of the entries of one tree.
ghost use Rattle.std.specs.Prelude.{◌≡◌, ◌+◌, ◌*◌, ◌^◌, ◌<◌, ◌≤◌, [], IsTrue, OnOk, length};
ghost use Rattle.metric_laws.specs.Calls.{RulerContinues};
ghost use Rattle.object_file.specs.ObjectFile.{HasSlots};
ghost use Rattle.page_laws.specs.Calls.{PagesStay};
ghost use Rattle.page_laws.specs.Errors.{CountsTreeFault};
ghost use Rattle.page_laws.specs.Pages.{count_after, is_live};
ghost use Rattle.bptree_node.specs.declared.layout.TheConstants.{HEIGHT_LIMIT};
ghost use Rattle.bptree_node.specs.Trees.{list_at, pages_at};
ghost use Rattle.bptree_walk.specs.Courses.{MOST_IN_TREE};
ghost use Rattle.join_step.specs.Meetings.{GoesOver};
ghost use Rattle.join_pass.specs.Passing.{tested, reaching_all};
ghost use Rattle.join_pass.specs.Damage.{TellsJoin, NamesJoinRule};

use bptree_walk::Cursor;
use join_step::{Placing, meet};
use join_window::Window;
use metric_laws::Ruler;
use page_laws::{Pages, Root};
use pair_entries::{JoinRequest, PairObjects};
use pivot_map::Steps;
use query_pass::Found;
use query_shelf::QueryError;
use std::alloc::Global;
use std::sync::ledger::Ledger;
use z_curve::ZCurve;

/// Passes over the entries of the curve tree with this root, in order, and judges each with those before it that reach
/// its key, with the lesser id on the left. It notes the verdicts in `found`, in which nothing was counted yet.
///
/// Each node is fetched once, and two pages for each pair that is measured; each test of two cells is one step. Over
/// every disk it evaluates at most 1152480 ^ 2 distances. It takes memory for the window, the objects of one pair and
/// what it notes.
///
/// Damaged comes only if a page is no node of its level (`node`) or names a child that isn't live (`page`; page 1 for
/// the root), if an entry's key is none of the curve (page 1 and `key`), or if the slot of an entry that is measured is
/// free (page 1 and `slot`) or holds no such object (its page and `slot`).
pub fn pass_over<P: Pages, R: Ruler, L: Ledger>(
    alloc: Global,
    request: &JoinRequest,
    curve: &ZCurve,
    root: Root,
    pages: &mut P,
    ruler: &mut R,
    steps: &mut Steps<L>,
    found: &mut Found<(u32, u32)>,
) -> Result<(), QueryError>
    requires one { request.now.left ≡ request.now.right }
    requires height { root.height ≤ HEIGHT_LIMIT }
    requires there { HasSlots (P.has pages.old) request.now.objects.now.cap }
    requires room { R.count ruler.old ≤ 2 ^ 63 }
    requires evals { found.old.evals ≡ 0 }
    requires sure { found.old.sure ≡ 0 }
    ensures goes { IsTrue (P.is_known pages.old)
        → OnOk result (GoesOver (R.dist (R.kind ruler.old)) request.now.r (P.page_at pages.old)
        (tested [] (reaching_all curve.now.n curve.now.b request.now.r (list_at (P.page_at pages.old) root))) found.old found.new
        (R.count ruler.old) (R.log ruler.old) (R.count ruler.new) (R.log ruler.new)) }
    ensures steps { IsTrue (P.is_known pages.old)
        → OnOk result (steps.new ≡ steps.old + length (tested [] (reaching_all curve.now.n curve.now.b request.now.r (list_at (P.page_at pages.old) root)))) }
    ensures fetches { IsTrue (P.is_known pages.old)
        → OnOk result (P.fetches pages.new ≡ count_after (P.fetches pages.old) (length (pages_at (P.page_at pages.old) root) + 2 * found.new.evals)) }
    ensures few { OnOk result (found.new.evals ≤ MOST_IN_TREE * MOST_IN_TREE) }
    ensures few_sure { OnOk result (found.new.sure ≤ MOST_IN_TREE * MOST_IN_TREE) }
    ensures counted { OnOk result (R.count ruler.new ≡ R.count ruler.old + found.new.evals) }
    ensures ruler { RulerContinues R.kind R.count ruler.old ruler.new }
    ensures tells { IsTrue (P.is_known pages.old)
        → TellsJoin (R.admitted (R.kind ruler.old)) curve.now.n curve.now.b request.now.objects.now (P.page_at pages.old)
        (is_live (P.in_pool pages.old) (P.free pages.old)) request.now.left root result }
    ensures names { NamesJoinRule request.now.objects.now result }
    ensures stay { PagesStay P.is_known P.has P.in_pool P.page_at P.free P.is_open P.put_pages P.calm pages.old pages.new }
    ensures fault { CountsTreeFault result (P.faults pages.old) (P.faults pages.new) }
{
    let mut objects = PairObjects::new(alloc);
    let mut window = Window::new(alloc);
    let mut cursor = Cursor::new(alloc)?;
    cursor.begin(root);
    while let Some(entry) = cursor.next_entry(pages)? {
        let later = meet(
            request,
            curve,
            Placing::ByIds,
            &mut window,
            entry,
            pages,
            ruler,
            steps,
            found,
            &mut objects,
        )?;
        window.add(later)?;
    }
    Ok(())
}
