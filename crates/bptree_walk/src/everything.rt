//! The region of all keys.

use bptree_node::Region;

/// The region that has every key, and that every box meets.
pub(crate) struct Everything;

impl Region for Everything {
    ghost use Rattle.std.specs.Prelude.{true};

    ghost meets_box = { λ _ _ _. true };

    ghost has_key = { λ _ _. true };

    fn meets(&self, _: u64, _: u64) -> bool {
        true
    }

    fn has(&self, _: u64) -> bool {
        true
    }
}
