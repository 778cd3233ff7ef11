//! The boxes of id trees, which keep nothing.
ghost use Rattle.std.specs.Prelude.{◌≡◌};

use bptree_node::{Boxes, Entry, NoBox};

/// The boxes of id trees: an entry's key is its id, and the corners of a branch are 0.
#[derive(Clone, Copy, Debug, PartialEq, Eq)]
pub struct IdBoxes;

impl Boxes<NoBox> for IdBoxes {
    ghost use Rattle.box_corner.specs.IdBoxes as words;

    ghost entry_box = { λ _. words.entry_box };

    ghost branch_box = { λ _. words.branch_box };

    ghost keys_of = { λ _ _. (0, 0) };

    ghost is_made = { λ _ _. Unit {0} };

    ghost width = { λ _. 0 };

    ghost box_laws = { λ _. words.box_laws };

    fn of_entry(&self, e: &Entry) -> Option<NoBox> {
        (e.key == u64::from(e.id)).then_some(NoBox)
    }

    fn of_branch(&self, low: u64, high: u64) -> Option<NoBox> {
        (low == 0 && high == 0).then_some(NoBox)
    }

    fn as_keys(&self, _: &NoBox) -> (u64, u64) {
        (0, 0)
    }
}
