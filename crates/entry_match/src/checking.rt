//! Trees that are checked and matched.
ghost use Rattle.std.specs.Prelude.{◌≡◌, ◌≤◌, IsTrue};
ghost use Rattle.page_laws.specs.Calls.{PagesStay};
ghost use Rattle.page_laws.specs.Errors.{CountsTreeFault};
ghost use Rattle.page_laws.specs.Pages.{is_live};
ghost use Rattle.bptree_node.specs.declared.layout.TheConstants.{HEIGHT_LIMIT};
ghost use Rattle.tree_check.specs.PageSets.{CoversPool, HasSameRange};
ghost use Rattle.entry_match.specs.Mismatches as words;
ghost use Rattle.entry_match.specs.Mismatches.{MatchesTree};

use crate::MatchedBoxes;
use crate::rules::leaf_rule;
use bptree_edit::damaged;
use bptree_node::{Boxes, Entry, Summary};
use page_laws::{Pages, Root, Rule, TreeError};
use tree_check::{PageSet, check_tree};

/// Checks the tree with this root, whatever the pages hold, and matches its entries with the notes of their
/// slots. Each page of it is read once; its entries are added to those gathered, and its pages to those used.
///
/// Ok comes exactly if the tree is sound, its entries have keys of the tree and match their slots, and none of
/// its pages was used before. Damaged names a page that breaks the rule named, as in `check_tree`; and a leaf
/// with an entry whose slot doesn't hold its id in the collection (`slot`), or whose key isn't that of the
/// object in its slot (`key`). Then that leaf is read once more. After an error what was gathered and used isn't
/// said.
pub fn check_matched<P: Pages, S: Summary, F: Boxes<S>>(
    pages: &mut P,
    root: Root,
    boxes: &MatchedBoxes<'_, F>,
    used: &mut PageSet,
    entries: &mut Vec<Entry>,
) -> Result<(), TreeError>
    requires height { root.height ≤ HEIGHT_LIMIT }
    requires empty { root.height ≡ 0 → root.page ≡ 0 }
    requires range { CoversPool (P.in_pool pages.old) used.old }
    ensures checks { IsTrue (P.is_known pages.old)
        → MatchesTree S.joined (F.entry_box boxes.now.boxes.now) (F.keys_of boxes.now.boxes.now) boxes.now.notes.now boxes.now.collection boxes.now.by_key (P.page_at pages.old)
        (is_live (P.in_pool pages.old) (P.free pages.old)) root used.old used.new entries.old.items entries.new.items result }
    ensures range { HasSameRange used.old used.new }
    ensures stay { PagesStay P.is_known P.has P.in_pool P.page_at P.free P.is_open P.put_pages P.calm pages.old pages.new }
    ensures fault { CountsTreeFault result (P.faults pages.old) (P.faults pages.new) }
{
    let Err(why) = check_tree(pages, root, boxes, used, entries) else {
        return Ok(());
    };
    let Some(leaf) = key_page(why) else {
        return Err(why);
    };
    let rule = leaf_rule(pages, leaf, boxes)?;
    Err(damaged(leaf, rule))
}

/// The page named, if the rule named is that of keys.
fn key_page(why: TreeError) -> Option<u32>
    ensures { result ≡ words.key_page why }
{
    match why {
        TreeError::Damaged {
            page,
            rule: Rule::Key,
        } => Some(page),
        _ => None,
    }
}
