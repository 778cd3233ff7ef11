//! The laws of windows, as contracts.
ghost use Rattle.std.specs.Prelude.{◌≡◌, ◌<◌, ◌≤◌, ℕ, List, [], ◌∷◌, ◌++◌, map, filter, not};
ghost use Rattle.std.specs.List.Sorted.{IsPermutation};
ghost use Rattle.curve_laws.specs.Grid.{IsCell};
ghost use Rattle.pivot_map.specs.Verdicts.{pair_verdict};
ghost use Rattle.pivot_map.specs.declared.verdict.PairTest.TheVariants.{Apart};
ghost use Rattle.z_curve.specs.ZOrder.{z_key};
ghost use Rattle.join_window.specs.Corners as words;
ghost use Rattle.join_window.specs.WindowPairs.{reaches, is_window_pair, ordered_pairs, pairs_behind, window_pairs, HoldsFrom};
ghost use Rattle.join_window.specs.declared.window.Reaching.{Reaching};

use z_curve::ZCurve;

/// That a later entry outside of the window is apart, as a contract: of two cells of the curve, if the second one's
/// key is above the key that the first one reaches, the pivots show that the two are further apart than the radius.
/// The call does nothing.
pub fn later_entries_are_apart(curve: &ZCurve)
    ensures { (v w : List ℕ) (radius : ℕ) → IsCell curve.now.n curve.now.b v → IsCell curve.now.n curve.now.b w
        → words.reach curve.now.b radius v < z_key curve.now.b w → pair_verdict v radius w ≡ Apart }
{
    curve.keeps_order();
}

/// That a window which is cleaned at each key holds all that reaches it, as a contract: the call does nothing.
///
/// At the start the window is empty. While keys don't fall, one that was cleaned at a key, and to which the key's
/// entry was added, holds from this key on exactly those of the entries so far that reach a key.
pub fn windows_hold_all()
    ensures begun { HoldsFrom 0 [] [] }
    ensures cleaned { (least key : ℕ) (window seen : List Reaching) → least ≤ key → HoldsFrom least window seen
        → filter (reaches key) window ≡ filter (reaches key) seen }
    ensures added { (least key : ℕ) (window seen : List Reaching) (e : Reaching) → least ≤ key → HoldsFrom least window seen
        → HoldsFrom key (filter (reaches key) window ++ (e ∷ [])) (seen ++ (e ∷ [])) }
{}

/// That the pairs of each entry with the window that it comes to are the window pairs, as a contract: the call does
/// nothing.
///
/// The pairs of the first entries, then those of an entry with what reaches its key among them, and then those of the
/// entries behind are all window pairs, each once and in this order.
pub fn window_pairs_are_whole()
    ensures next { (seen rest : List Reaching) (e : Reaching) → filter is_window_pair (pairs_behind seen (e ∷ rest))
        ≡ map (λ a. (a, e)) (filter (reaches e.entry.key) seen) ++ filter is_window_pair (pairs_behind (seen ++ (e ∷ [])) rest) }
    ensures parted { (entries : List Reaching) → IsPermutation (ordered_pairs entries)
        (window_pairs entries ++ filter (λ p. not (is_window_pair p)) (ordered_pairs entries)) }
{}
