//! Rows that the definitions compute.
ghost use Rattle.std.specs.Prelude.{◌≡◌, [], ◌∷◌, map, true, false, Some, None};
ghost use Rattle.bptree_node.specs.Trees.{goes_before, slot_of, IsRising};
ghost use Rattle.bptree_node.specs.Worked.{entry, three, span_of};

/// Which keys and ids go before others, what they find, and the summary of entries, for a few of them:
/// the definitions compute these. The call does nothing.
pub fn worked_rows()
    ensures before { (goes_before 1 9 2 0 ≡ true) × (goes_before 2 3 2 4 ≡ true) }
    ensures not_before { (goes_before 2 4 2 4 ≡ false) × (goes_before 2 5 2 4 ≡ false) × (goes_before 3 0 2 9 ≡ false) }
    ensures rising { IsRising three }
    // An entry doesn't go before one of its key and id.
    ensures equal { IsRising (entry 5 1 ∷ entry 5 1 ∷ []) → ⊥ }
    ensures found { map (λ id. slot_of 5 id three) (0 ∷ 1 ∷ 2 ∷ 3 ∷ 4 ∷ []) ≡ None ∷ Some 11 ∷ None ∷ Some 13 ∷ None ∷ [] }
    ensures keys { map (λ key. slot_of key 1 three) (4 ∷ 5 ∷ 6 ∷ 7 ∷ []) ≡ None ∷ Some 11 ∷ None ∷ Some 11 ∷ [] }
    ensures none { span_of [] ≡ None }
    ensures one { span_of (entry 4 1 ∷ []) ≡ Some (4, 4) }
    ensures span { span_of (entry 4 1 ∷ entry 9 1 ∷ entry 6 2 ∷ []) ≡ Some (4, 9) }
    // The second key has no summary.
    ensures outside { span_of (entry 4 1 ∷ entry 100 1 ∷ entry 6 2 ∷ []) ≡ None }
{}
