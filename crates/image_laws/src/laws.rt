//! Slots and trees that hold the objects of a store.
ghost use Rattle.std.specs.Prelude.{◌≡◌, ◌⊎◌, ℕ, ◌<◌, ◌≤◌, true, false, List, length};
ghost use Rattle.std.specs.List.{AllByRecursion};
ghost use Rattle.answer_lists.specs.Order.{sorted_by};
ghost use Rattle.metric_laws.specs.Objects.{Object};
ghost use Rattle.scan_laws.specs.Tables.{key_before};
ghost use Rattle.object_file.specs.Slots.{Free};
ghost use Rattle.object_file.specs.ObjectFile.{slot_at};
ghost use Rattle.spb_defs.specs.State.{State};
ghost use Rattle.bptree_node.specs.declared.rows.Entry.{Entry};
ghost use Rattle.bptree_node.specs.Trees.{IsTree, list_at};
ghost use Rattle.bptree_edit.specs.NodesAt.{times};
ghost use Rattle.store_check.specs.declared.profile.Profile.{Profile};
ghost use Rattle.store_check.specs.Stands.{IsProfiled, placed_members};
ghost use Rattle.tree_state.specs.StoreCurves.{AreCurveCorners, AreIdCorners};
ghost use Rattle.tree_state.specs.StoreTrees.{is_pool_page, curve_root, id_root, tree_pages, KeepsTrees};
ghost use Rattle.image_trees.specs.Trees.{named_before};
ghost use Rattle.tree_check.specs.PageSets.{Marks, has};
ghost use Rattle.slot_notes.specs.declared.notes.SlotNote.{SlotNote};
ghost use Rattle.slot_notes.specs.Notes.{AreNotes};
ghost use Rattle.image_laws.specs.Held.{HoldsTrees, IsHeldBy, AreCurveTrees, AreIdTrees};

/// Eight trees with exact boxes and no page in common, whose entries name slots that hold what they say, hold
/// the objects of a store if each slot is free or named by a curve tree and by an id tree. The call does
/// nothing.
///
/// Then no two slots hold the same collection and id, and the list of each tree is that of its collection's
/// objects in order.
pub fn matched_trees_hold()
    ensures { (home : ℕ → List ℕ) (profile : Profile) (pivots : List Object) → length profile.roots ≡ 8
        → ((c : ℕ) → c < 4 → AllByRecursion (IsHeldBy home profile pivots c true) (list_at home (curve_root profile.roots c)))
        → ((c : ℕ) → c < 4 → AllByRecursion (IsHeldBy home profile pivots c false) (list_at home (id_root profile.roots c)))
        → ((c : ℕ) → c < 4 → IsTree (AreCurveCorners profile) home (is_pool_page profile.cap) (curve_root profile.roots c))
        → ((c : ℕ) → c < 4 → IsTree AreIdCorners home (is_pool_page profile.cap) (id_root profile.roots c))
        → ((c : ℕ) → c < 4 → AllByRecursion (λ (e : Entry). e.key ≡ e.id) (list_at home (id_root profile.roots c)))
        → ((slot : ℕ) → slot < profile.cap → (slot_at home slot ≡ Free)
        ⊎ ((named_before home profile.roots 0 4 slot ≡ true) × (named_before home profile.roots 4 4 slot ≡ true)))
        → ((m : ℕ) → times m (tree_pages home profile.roots) ≤ 1) → HoldsTrees home profile pivots }
{}

/// Pages that have the profile and the pivots of a state, and whose slots and trees hold the state's members,
/// hold the state with its trees. The call does nothing.
pub fn held_trees_are_kept()
    ensures { (home : ℕ → List ℕ) (s : State) (profiled : IsProfiled home s) → HoldsTrees home profiled.profile s.pivots
        → s.members ≡ sorted_by key_before (placed_members s.cap home) → KeepsTrees home s }
{}

/// Pages that hold a state with its trees hold its members by their slots and their trees. The call does
/// nothing.
pub fn kept_trees_are_held()
    ensures { (home : ℕ → List ℕ) (s : State) (keeps : KeepsTrees home s) → HoldsTrees home keeps.profiled.profile s.pivots }
{}

/// Eight trees whose entries were matched with notes of the slots, the curve trees first, hold the objects of a
/// store if each slot is free or named by both kinds of trees. The call does nothing.
pub fn checked_trees_hold()
    ensures { (home : ℕ → List ℕ) (profile : Profile) (pivots : List Object) (notes : List SlotNote) → AreNotes profile pivots home profile.cap notes
        → (before between after named by_ids : Marks) → AreCurveTrees home profile notes before between named → AreIdTrees home profile notes between after by_ids
        → length profile.roots ≡ 8
        → ((slot : ℕ) → slot < profile.cap → (slot_at home slot ≡ Free) ⊎ ((has named slot ≡ true) × (has by_ids slot ≡ true)))
        → HoldsTrees home profile pivots }
{}

/// Where slots and trees hold the objects of a store, a slot below the cap that isn't free is named by a curve
/// tree and by an id tree, and a free slot by none. The call does nothing.
pub fn held_slots_are_named()
    ensures filled { (home : ℕ → List ℕ) (profile : Profile) (pivots : List Object) → HoldsTrees home profile pivots
        → (slot : ℕ) → slot < profile.cap → (slot_at home slot ≡ Free → ⊥)
        → (named_before home profile.roots 0 4 slot ≡ true) × (named_before home profile.roots 4 4 slot ≡ true) }
    ensures free { (home : ℕ → List ℕ) (profile : Profile) (pivots : List Object) → HoldsTrees home profile pivots
        → (slot : ℕ) → slot_at home slot ≡ Free
        → (named_before home profile.roots 0 4 slot ≡ false) × (named_before home profile.roots 4 4 slot ≡ false) }
{}
