//! Trees and slots of a store, and the rules that they might break.
ghost use Rattle.std.specs.Prelude.{◌≡◌, ℕ, List, length, All};
ghost use Rattle.metric_laws.specs.Objects.{Object};
ghost use Rattle.metrics_builtin.specs.Space.{IsValid};
ghost use Rattle.page_laws.specs.declared.errors.TreeError.TheVariants as tree;
ghost use Rattle.page_laws.specs.declared.rule.Rule.{Rule};
ghost use Rattle.store_check.specs.declared.profile.Profile.{Profile};
ghost use Rattle.store_check.specs.Profile.{IsInRange};
ghost use Rattle.image_laws.specs.Held.{HoldsTrees};
ghost use Rattle.image_faults.specs.Faults.{IsBroken};

/// Where slots and trees hold the objects of a store whose profile is in its ranges and whose pivots are
/// objects of its space, no page breaks a rule. The call does nothing.
///
/// So where a page is found to break one, the pages hold no store.
pub fn held_trees_break_no_rule()
    ensures { (home : ℕ → List ℕ) (profile : Profile) (pivots : List Object) → HoldsTrees home profile pivots → IsInRange profile → length pivots ≡ profile.pivots
        → All (IsValid profile.space) pivots → (page : ℕ) (r : Rule) → IsBroken home profile pivots (tree.Damaged page r) → ⊥ }
{}
