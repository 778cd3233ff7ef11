//! The trees of four collections.
ghost use Rattle.std.specs.Prelude.{◌≡◌, ℕ, ◌<◌, ◌≤◌, IsTrue, All, length, MatchResult};
ghost use Rattle.page_laws.specs.declared.root.Root.{Root};
ghost use Rattle.page_laws.specs.Calls.{PagesStay};
ghost use Rattle.page_laws.specs.Errors.{CountsTreeFault};
ghost use Rattle.page_laws.specs.Pages.{is_live};
ghost use Rattle.bptree_node.specs.declared.layout.TheConstants.{HEIGHT_LIMIT};
ghost use Rattle.store_check.specs.Profile.{is_root};
ghost use Rattle.tree_check.specs.PageSets.{covers, CoversPool, HasSameRange};
ghost use Rattle.image_trees.specs.Trees.{root_at, AreMatched, HasMismatch};

use crate::marking::mark;
use bptree_node::{Boxes, Entry, Summary};
use entry_match::{MatchedBoxes, check_matched};
use page_laws::{Pages, Root, TreeError};
use slot_notes::SlotNotes;
use std::alloc::Global;
use tree_check::PageSet;

/// Checks the trees of the four collections, whose roots stand from a place on, and matches their entries
/// with the notes of their slots. Each page of them is read once; their pages are added to those used, and the
/// slots that they name to those named.
///
/// Ok comes exactly if each tree is sound, its entries match their slots, and none of its pages was used before,
/// also not by an earlier tree. Damaged names a page of a tree that breaks the rule named, as `check_matched`
/// says.
pub fn check_trees<P: Pages, S: Summary, F: Boxes<S>>(
    alloc: Global,
    pages: &mut P,
    roots: &[Root; 8],
    first: usize,
    boxes: &F,
    notes: &SlotNotes,
    by_key: bool,
    cap: u32,
    used: &mut PageSet,
    named: &mut PageSet,
) -> Result<(), TreeError>
    requires first { first ≤ 4 }
    requires roots { All (λ (root : Root). IsTrue (is_root root)) roots.now }
    requires range { CoversPool (P.in_pool pages.old) used.old }
    requires slots { (n : ℕ) → n < cap → IsTrue (covers named.old n) }
    ensures trees { IsTrue (P.is_known pages.old)
        → MatchResult result
        (λ _. AreMatched S.joined (F.entry_box boxes.now) (F.keys_of boxes.now) notes.now by_key (P.page_at pages.old) (is_live (P.in_pool pages.old) (P.free pages.old)) roots.now first cap 4
        used.old used.new named.old named.new)
        (HasMismatch S.joined (F.entry_box boxes.now) (F.keys_of boxes.now) notes.now by_key (P.page_at pages.old) (is_live (P.in_pool pages.old) (P.free pages.old)) roots.now first used.old) }
    ensures used { HasSameRange used.old used.new }
    ensures named { HasSameRange named.old named.new }
    ensures stay { PagesStay P.is_known P.has P.in_pool P.page_at P.free P.is_open P.put_pages P.calm pages.old pages.new }
    ensures fault { CountsTreeFault result (P.faults pages.old) (P.faults pages.new) }
{
    let mut entries: Vec<Entry> = Vec::new(alloc);
    for c in 0..4 {
        let matched = MatchedBoxes {
            boxes,
            notes,
            collection: c,
            by_key,
        };
        entries.clear();
        let root = root_of(roots, first + c as usize);
        check_matched(pages, root, &matched, used, &mut entries)?;
        mark(&entries, cap, named);
    }
    Ok(())
}

/// The root of a place.
fn root_of(roots: &[Root; 8], i: usize) -> Root
    requires place { i < 8 }
    requires roots { All (λ (root : Root). IsTrue (is_root root)) roots.now }
    ensures root { result ≡ root_at roots.now i }
    ensures height { result.height ≤ HEIGHT_LIMIT }
    ensures empty { result.height ≡ 0 → result.page ≡ 0 }
{
    roots[i]
}
