//! Laws of several trees that share a pool.
ghost use Rattle.std.specs.Prelude.{◌≡◌, ℕ, ◌+◌, ◌-◌, ◌*◌, ◌≤◌, ◌<◌, Bool, false, IsTrue, List, length, slice_set, sum_by};
ghost use Rattle.page_laws.specs.declared.root.Root.{Root};
ghost use Rattle.page_laws.specs.Pages.{is_live};
ghost use Rattle.free_list.specs.FreeNumbers.{is_within};
ghost use Rattle.bptree_node.specs.Trees.{IsTree, list_at};
ghost use Rattle.store_check.specs.declared.profile.Profile.{Profile};
ghost use Rattle.store_check.specs.Layout.{pool_pages};
ghost use Rattle.tree_forest.specs.Forests.{corners_of, root_at, IsForest, ReplacesTree};

/// The trees of a forest have no free page. The call does nothing.
pub fn trees_of_forests_are_live()
    ensures { (profile : Profile) (home : ℕ → List ℕ) (in_pool : ℕ → Bool) (free : List ℕ) (roots : List Root) (k : ℕ)
        → IsForest (corners_of profile) home in_pool free roots → k < length roots → IsTree (corners_of profile k) home (is_live in_pool free) (root_at roots k) }
{}

/// If one tree of a forest is replaced by another one, made of its pages and free ones, the others stay as
/// they are, with their entries, and so do pages outside of the pool. The call does nothing.
pub fn tree_is_replaced()
    ensures forest { (profile : Profile) (old new : ℕ → List ℕ) (in_pool : ℕ → Bool) (old_free new_free : List ℕ) (roots : List Root) (k : ℕ) (above : Root)
        → IsForest (corners_of profile) old in_pool old_free roots → k < length roots
        → ReplacesTree (corners_of profile k) (is_live in_pool new_free) old new old_free new_free (root_at roots k) above
        → IsForest (corners_of profile) new in_pool new_free (slice_set roots k above) }
    ensures others { (profile : Profile) (old new : ℕ → List ℕ) (in_pool : ℕ → Bool) (old_free new_free : List ℕ) (roots : List Root) (k j : ℕ) (above : Root)
        → IsForest (corners_of profile) old in_pool old_free roots → k < length roots
        → ReplacesTree (corners_of profile k) (is_live in_pool new_free) old new old_free new_free (root_at roots k) above
        → j < length roots → (j ≡ k → ⊥) → list_at new (root_at roots j) ≡ list_at old (root_at roots j) }
    ensures outside { (profile : Profile) (old new : ℕ → List ℕ) (in_pool : ℕ → Bool) (old_free new_free : List ℕ) (roots : List Root) (k n : ℕ) (above : Root)
        → IsForest (corners_of profile) old in_pool old_free roots → k < length roots
        → ReplacesTree (corners_of profile k) (is_live in_pool new_free) old new old_free new_free (root_at roots k) above
        → in_pool n ≡ false → new n ≡ old n }
{}

/// If only pages outside of the pool are replaced, the trees of a forest stay as they are, with their
/// entries. The call does nothing.
pub fn other_pages_are_replaced()
    ensures forest { (profile : Profile) (old new : ℕ → List ℕ) (in_pool : ℕ → Bool) (free : List ℕ) (roots : List Root)
        → IsForest (corners_of profile) old in_pool free roots → ((n : ℕ) → IsTrue (in_pool n) → new n ≡ old n) → IsForest (corners_of profile) new in_pool free roots }
    ensures lists { (profile : Profile) (old new : ℕ → List ℕ) (in_pool : ℕ → Bool) (free : List ℕ) (roots : List Root) (k : ℕ)
        → IsForest (corners_of profile) old in_pool free roots → ((n : ℕ) → IsTrue (in_pool n) → new n ≡ old n) → k < length roots
        → list_at new (root_at roots k) ≡ list_at old (root_at roots k) }
{}

/// Eight trees on the pool of a store's file with at most two entries for each object that it may have
/// leave twenty-nine pages free: a change takes at most twelve. The call does nothing.
pub fn forests_leave_room()
    ensures { (profile : Profile) (cap first : ℕ) (home : ℕ → List ℕ) (free : List ℕ) (roots : List Root)
        → IsForest (corners_of profile) home (is_within first (pool_pages cap)) free roots → length roots ≤ 8
        → sum_by (λ (root : Root). length (list_at home root)) roots ≤ 2 * cap → 29 ≤ length free }
{}
