//! What images with trees stand for, as contracts.
ghost use Rattle.std.specs.Prelude.{◌≡◌, ℕ, Bool, true, false, IsTrue, List, [], ◌∷◌, Some, length, All};
ghost use Rattle.metric_laws.specs.Objects.{Object};
ghost use Rattle.metrics_builtin.specs.Space.{IsValid, dist};
ghost use Rattle.curve_laws.specs.Grid.{IsCell};
ghost use Rattle.spb_defs.specs.Pivots.{cells_of};
ghost use Rattle.store_check.specs.declared.profile.Profile.{Profile};
ghost use Rattle.store_check.specs.Profile.{IsInRange};
ghost use Rattle.redo_journal.specs.Pages.{IsHome};
ghost use Rattle.spb_defs.specs.State.{State, IsState};
ghost use Rattle.store_check.specs.Layout.{file_pages};
ghost use Rattle.bptree_node.specs.declared.rows.Entry.{Entry};
ghost use Rattle.bptree_node.specs.Nodes.{Leaf, node_in};
ghost use Rattle.bptree_node.specs.Trees.{IsRising, IsTree, list_at, pages_at};
ghost use Rattle.spb_defs.specs.declared.CurveKind.{CurveKind};
ghost use Rattle.spb_defs.specs.declared.CurveKind.TheVariants.{Z, Hilbert};
ghost use Rattle.curve_laws.specs.Laws.{IsCurve};
ghost use Rattle.z_curve.specs.ZOrder.{z_key};
ghost use Rattle.hilbert_curve.specs.Curve.{hilbert_key};
ghost use Rattle.store_check.specs.Stands.{Keeps};
ghost use Rattle.tree_state.specs.StoreCurves.{key_on, cell_on, AreCurveCorners, AreIdCorners};
ghost use Rattle.tree_state.specs.StoreTrees.{KeepsTrees, StandsOnTrees, first_pool_page, is_pool_page};
ghost use Rattle.tree_state.specs.TreeEntries.{id_entries, curve_entries};
ghost use Rattle.tree_state.specs.Worked.{four};

/// An image stands for at most one state. The call does nothing.
pub fn one_tree_state()
    ensures { (image : List ℕ) (s t : State) → StandsOnTrees image s → StandsOnTrees image t → s ≡ t }
{}

/// What holds of every state holds of one that an image stands for. The call does nothing.
pub fn tree_store_is_state()
    ensures { (image : List ℕ) (s : State) → StandsOnTrees image s → IsState s }
{}

/// What pages hold is the same in other pages that are alike where a change may replace them. The call does
/// nothing.
pub fn trees_kept_moved()
    ensures { (home other : ℕ → List ℕ) (s : State) → KeepsTrees home s → ((n : ℕ) → IsHome (file_pages s.cap) n → other n ≡ home n) → KeepsTrees other s }
{}

/// The cells of an object are a cell of the curve of its store's profile: one coordinate for each pivot, each
/// of the profile's bits. The call does nothing.
pub fn objects_have_cells()
    ensures { (profile : Profile) (pivots : List Object) (object : Object) → IsInRange profile → length pivots ≡ profile.pivots
        → All (IsValid profile.space) pivots → IsValid profile.space object → IsCell profile.pivots profile.bits (cells_of (dist profile.space) pivots object) }
{}

/// A leaf of rising entries on a live page is a tree of height 1 with these entries on this page, whatever the
/// corners of branches are to be. The call does nothing.
pub fn one_leaf_is_a_tree()
    ensures curve { (profile : Profile) (home : ℕ → List ℕ) (live : ℕ → Bool) (n : ℕ) (entries : List Entry) → node_in (home n) ≡ Some (Leaf entries)
        → IsRising entries → IsTrue (live n) → IsTree (AreCurveCorners profile) home live (record { page = n; height = 1 }) }
    ensures ids { (home : ℕ → List ℕ) (live : ℕ → Bool) (n : ℕ) (entries : List Entry) → node_in (home n) ≡ Some (Leaf entries)
        → IsRising entries → IsTrue (live n) → IsTree AreIdCorners home live (record { page = n; height = 1 }) }
    ensures holds { (home : ℕ → List ℕ) (n : ℕ) (entries : List Entry) → node_in (home n) ≡ Some (Leaf entries)
        → (list_at home (record { page = n; height = 1 }) ≡ entries) × (pages_at home (record { page = n; height = 1 }) ≡ n ∷ []) }
{}

/// Pages that hold a state without members, with no tree, hold it with its trees. The call does nothing.
pub fn empty_trees_are_kept()
    ensures { (home : ℕ → List ℕ) (s : State) → Keeps home s → s.members ≡ [] → KeepsTrees home s }
{}

/// The entries of the trees of four objects in slots, and the pool of a file for three objects. The call does
/// nothing.
pub fn worked_trees()
    ensures ids { id_entries 0 four
        ≡ record { key = 1; id = 1; slot = 3 } ∷ record { key = 4; id = 4; slot = 2 } ∷ record { key = 9; id = 9; slot = 0 } ∷ [] }
    ensures other_ids { id_entries 1 four ≡ record { key = 2; id = 2; slot = 1 } ∷ [] }
    ensures keys { curve_entries (z_key 2) 0 four
        ≡ record { key = 2; id = 9; slot = 0 } ∷ record { key = 9; id = 1; slot = 3 } ∷ record { key = 9; id = 4; slot = 2 } ∷ [] }
    ensures other_keys { curve_entries (z_key 2) 1 four ≡ record { key = 15; id = 2; slot = 1 } ∷ [] }
    ensures none { curve_entries (z_key 2) 2 four ≡ [] }
    ensures curves { (key_on Z 2 2 ≡ z_key 2) × (key_on Hilbert 2 2 ≡ hilbert_key 2 2) }
    ensures pool { (first_pool_page 3 ≡ 86) × (is_pool_page 3 85 ≡ false) × (is_pool_page 3 86 ≡ true) × (is_pool_page 3 125 ≡ true) × (is_pool_page 3 126 ≡ false) }
{}

/// The keys and the cells on either curve belong to each other, one to one. The call does nothing.
pub fn store_curves_are_curves()
    ensures { (kind : CurveKind) (axes bits : ℕ) → IsCurve axes bits (key_on kind axes bits) (cell_on kind axes bits) }
{}
