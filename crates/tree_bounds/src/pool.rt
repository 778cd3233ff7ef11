//! Laws on the pages that trees have and leave.
ghost use Rattle.std.specs.Prelude.{◌≡◌, ℕ, ◌+◌, ◌-◌, ◌*◌, ◌^◌, ◌≤◌, Bool, List, ◌++◌, length, sum_by};
ghost use Rattle.std.specs.List.{flat_map, range_with_len, AllByRecursion};
ghost use Rattle.std.specs.List.Sorted.{IsPermutation};
ghost use Rattle.page_laws.specs.declared.root.Root.{Root};
ghost use Rattle.bptree_node.specs.Trees.{list_at, pages_at, IsBPlusTree};
ghost use Rattle.store_check.specs.Layout.{pool_pages};

/// How many pages a B+-tree has, and how many entries one of a given height has, as a contract: the
/// call does nothing.
///
/// A node that isn't the root has at least fifteen entries or seven branches. So fifteen times the
/// pages are at most twice the entries and fifteen, and a tree of two levels or more has at least
/// thirty entries, seven times as many with each further level.
pub fn trees_have_few_pages()
    ensures few { (pages : ℕ → List ℕ) (is_live : ℕ → Bool) (root : Root) → IsBPlusTree pages is_live root
        → 15 * length (pages_at pages root) ≤ 2 * length (list_at pages root) + 15 }
    ensures tall { (pages : ℕ → List ℕ) (is_live : ℕ → Bool) (root : Root) → IsBPlusTree pages is_live root → 2 ≤ root.height
        → 30 * 7 ^ (root.height - 2) ≤ length (list_at pages root) }
{}

/// That the pool of a file has room for the trees of a store, as a contract: the call does nothing.
///
/// The eight trees of a store, two for each collection, have two entries for each object. However
/// the objects are spread over them, twenty-nine pages of the pool are in none: a change takes at
/// most twelve.
pub fn pools_have_room()
    ensures used { (cap : ℕ) (pages : ℕ → List ℕ) (is_live : ℕ → Bool) (roots : List Root) → length roots ≤ 8
        → AllByRecursion (λ (root : Root). IsBPlusTree pages is_live root) roots
        → sum_by (λ (root : Root). length (list_at pages root)) roots ≤ 2 * cap
        → length (flat_map (λ (root : Root). pages_at pages root) roots) + 29 ≤ pool_pages cap }
    ensures free { (cap first : ℕ) (pages : ℕ → List ℕ) (is_live : ℕ → Bool) (roots : List Root) (free : List ℕ) → length roots ≤ 8
        → AllByRecursion (λ (root : Root). IsBPlusTree pages is_live root) roots
        → sum_by (λ (root : Root). length (list_at pages root)) roots ≤ 2 * cap
        → IsPermutation (free ++ flat_map (λ (root : Root). pages_at pages root) roots) (range_with_len first (pool_pages cap))
        → 29 ≤ length free }
{}
