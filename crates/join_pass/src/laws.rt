//! The laws of the pairs that are tested, as contracts.
ghost use Rattle.std.specs.Prelude.{◌≡◌, List, [], map};
ghost use Rattle.join_window.specs.WindowPairs.{window_pairs};
ghost use Rattle.join_window.specs.declared.window.Reaching.{Reaching};
ghost use Rattle.join_pass.specs.Passing.{tested, by_ids, KeysRise};

use join_window::{window_pairs_are_whole, windows_hold_all};

/// That the window pairs are tested, as a contract: if the keys don't fall, the pairs that a pass tests are the window
/// pairs, each once and with the lesser id on the left. The call does nothing.
pub fn window_pairs_are_tested()
    ensures { (entries : List Reaching) → KeysRise entries → tested [] entries ≡ map by_ids (window_pairs entries) }
{
    windows_hold_all();
    window_pairs_are_whole();
}
