//! Laws that join what the slots hold to the entries of the trees.
ghost use Rattle.std.specs.Prelude.{◌≡◌, ℕ, ◌+◌, ◌≤◌, ◌<◌, List, [], length, None, Some};
ghost use Rattle.std.specs.Map.{lookup};
ghost use Rattle.std.specs.BTreeMap.{is_at};
ghost use Rattle.metrics_builtin.specs.declared.Space.{Space};
ghost use Rattle.spb_defs.specs.State.{Members, key_cmp};
ghost use Rattle.object_file.specs.Slots.{Free, Holds};
ghost use Rattle.object_file.specs.ObjectFile.{slot_at, SetsSlot};
ghost use Rattle.store_check.specs.Stands.{placed, HoldsMembers};
ghost use Rattle.bptree_node.specs.declared.rows.Entry.{Entry};
ghost use Rattle.bptree_node.specs.Trees.{IsRising, slot_of};
ghost use Rattle.bptree_edit.specs.Changes.{IsWith};
ghost use Rattle.tree_lists.specs.Lists.{collection_entries, id_key};

/// The entries of a collection with the one of a slot that was filled, in order, are those of the slots
/// as they are then; and without the one of a slot that was cleared. Those of the other collections stay
/// the same. The key of an object may be any function of its id and its bytes. The call does nothing.
pub fn lists_follow_slots()
    ensures filled { (key_of : ℕ → List ℕ → ℕ) (cap slot c id : ℕ) (object : List ℕ) (old new : ℕ → List ℕ) (more : List Entry)
        → slot < cap → slot_at old slot ≡ Free → SetsSlot slot (Holds c id object) old new
        → IsWith (record { key = key_of id object; id = id; slot = slot }) (collection_entries key_of c (placed cap old)) more → IsRising more
        → more ≡ collection_entries key_of c (placed cap new) }
    ensures cleared { (key_of : ℕ → List ℕ → ℕ) (cap slot c id : ℕ) (object : List ℕ) (old new : ℕ → List ℕ) (fewer : List Entry)
        → slot < cap → slot_at old slot ≡ Holds c id object → SetsSlot slot Free old new
        → IsWith (record { key = key_of id object; id = id; slot = slot }) fewer (collection_entries key_of c (placed cap old))
        → IsRising (collection_entries key_of c (placed cap old)) → fewer ≡ collection_entries key_of c (placed cap new) }
    ensures filled_elsewhere { (key_of : ℕ → List ℕ → ℕ) (cap slot c d id : ℕ) (object : List ℕ) (old new : ℕ → List ℕ)
        → slot < cap → slot_at old slot ≡ Free → SetsSlot slot (Holds c id object) old new → (c ≡ d → ⊥)
        → IsRising (collection_entries key_of d (placed cap old))
        → collection_entries key_of d (placed cap new) ≡ collection_entries key_of d (placed cap old) }
    ensures cleared_elsewhere { (key_of : ℕ → List ℕ → ℕ) (cap slot c d id : ℕ) (object : List ℕ) (old new : ℕ → List ℕ)
        → slot < cap → slot_at old slot ≡ Holds c id object → SetsSlot slot Free old new → (c ≡ d → ⊥)
        → IsRising (collection_entries key_of d (placed cap old))
        → collection_entries key_of d (placed cap new) ≡ collection_entries key_of d (placed cap old) }
{}

/// What a key and an id find among the entries of a collection: the slot of the object, if there is one.
/// The call does nothing.
pub fn ids_find_slots()
    ensures found { (space : Space) (cap c key id slot : ℕ) (home : ℕ → List ℕ) (members : Members) (key_of : ℕ → List ℕ → ℕ)
        → HoldsMembers space cap home members → slot_of key id (collection_entries key_of c (placed cap home)) ≡ Some slot
        → (object : List ℕ) × (slot < cap) × (slot_at home slot ≡ Holds c id object) × (lookup (is_at (key_cmp (c, id))) members ≡ Some object) }
    ensures none { (space : Space) (cap c id : ℕ) (home : ℕ → List ℕ) (members : Members)
        → HoldsMembers space cap home members → slot_of id id (collection_entries id_key c (placed cap home)) ≡ None
        → lookup (is_at (key_cmp (c, id))) members ≡ None }
    ensures absent { (space : Space) (cap c key id : ℕ) (home : ℕ → List ℕ) (members : Members) (key_of : ℕ → List ℕ → ℕ)
        → HoldsMembers space cap home members → lookup (is_at (key_cmp (c, id))) members ≡ None
        → slot_of key id (collection_entries key_of c (placed cap home)) ≡ None }
    ensures held { (space : Space) (cap slot c id : ℕ) (object : List ℕ) (home : ℕ → List ℕ) (members : Members) (key_of : ℕ → List ℕ → ℕ)
        → HoldsMembers space cap home members → slot < cap → slot_at home slot ≡ Holds c id object
        → slot_of (key_of id object) id (collection_entries key_of c (placed cap home)) ≡ Some slot }
{}

/// The trees of the four collections that have one entry for each object have as many entries as there are
/// members, and none of them has more. The call does nothing.
pub fn objects_are_counted()
    ensures all { (space : Space) (cap : ℕ) (home : ℕ → List ℕ) (members : Members) (key_of : ℕ → List ℕ → ℕ) → HoldsMembers space cap home members
        → length (collection_entries key_of 0 (placed cap home)) + length (collection_entries key_of 1 (placed cap home))
        + length (collection_entries key_of 2 (placed cap home)) + length (collection_entries key_of 3 (placed cap home)) ≡ length members }
    ensures one { (space : Space) (cap c : ℕ) (home : ℕ → List ℕ) (members : Members) (key_of : ℕ → List ℕ → ℕ) → HoldsMembers space cap home members
        → length (collection_entries key_of c (placed cap home)) ≤ length members }
{}
