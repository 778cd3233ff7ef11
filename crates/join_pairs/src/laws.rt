//! The law of ordered pairs, as a contract.
ghost use Rattle.std.specs.Prelude.{◌≡◌, ◌≢◌, ◌++◌, true, not, List, map, filter, AllPairs};
ghost use Rattle.std.specs.List.Sorted.{IsPermutation};
ghost use Rattle.spb_defs.specs.Scans.{Entry, considered_pairs};
ghost use Rattle.join_window.specs.WindowPairs.{is_window_pair, ordered_pairs, window_pairs};
ghost use Rattle.join_window.specs.declared.window.Reaching.{Reaching};
ghost use Rattle.join_pairs.specs.Pairs.{lesser_left, lesser_first, both};

use join_window::window_pairs_are_whole;

/// That the pairs of an earlier row and a later one, in whatever order the rows stand, are the pairs that a join of
/// these rows with themselves looks at, as a contract: with the lesser id on the left they are the same pairs, each
/// once, if no two rows have the same id. The call does nothing.
pub fn ordered_pairs_are_considered()
    ensures { (rows : List Entry) → AllPairs (λ (a b : Entry). a.0 ≢ b.0) rows
        → IsPermutation (considered_pairs true rows rows) (map lesser_left (ordered_pairs rows)) }
{}

/// That the window pairs and the others are the pairs that a join of the entries' rows with themselves looks at, as a
/// contract: whatever the rows are, if they have the entries' ids, of which no two are the same. The call does nothing.
pub fn window_pairs_and_others_are_considered()
    ensures { (entries : List Reaching) (row : Reaching → Entry) → ((e : Reaching) → (row e).0 ≡ e.entry.id)
        → AllPairs (λ (a b : Reaching). a.entry.id ≢ b.entry.id) entries
        → IsPermutation (considered_pairs true (map row entries) (map row entries))
        (map (both row) (map lesser_first (window_pairs entries ++ filter (λ p. not (is_window_pair p)) (ordered_pairs entries)))) }
{
    window_pairs_are_whole();
}
