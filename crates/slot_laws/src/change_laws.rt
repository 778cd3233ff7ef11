//! Laws that join one slot's change, and the reading of slots one after another, to the members that the
//! slots hold.
ghost use Rattle.std.specs.Prelude.{◌≡◌, ℕ, ◌+◌, ◌^◌, ◌<◌, IsTrue, List, [], ◌∷◌, length, map, None, Some, AllPairs, Contains, slice_set};
ghost use Rattle.std.specs.List.{insert, range_with_len, remove, slice_index_or, zip};
ghost use Rattle.std.specs.List.Sorted.{IsPermutation};
ghost use Rattle.std.specs.Map.{lookup};
ghost use Rattle.std.specs.BTreeMap.{is_at};
ghost use Rattle.page_laws.specs.Pages.{is_live};
ghost use Rattle.metrics_builtin.specs.declared.Space.{Space};
ghost use Rattle.metrics_builtin.specs.Space.{IsValid};
ghost use Rattle.spb_defs.specs.Scans.{Entry};
ghost use Rattle.spb_defs.specs.State.{Members, key_cmp, with_object, without_object};
ghost use Rattle.scan_laws.specs.Tables.{HasDistinctEntryIds, members_of, object_with_id};
ghost use Rattle.object_file.specs.Slots.{Slot, Free, Holds};
ghost use Rattle.object_file.specs.ObjectFile.{is_slot, slot_at, SetsSlot};
ghost use Rattle.store_check.specs.Stands.{IsReadable, HoldsMembers};
ghost use Rattle.store_check.specs.Damage.{HoldsAgain};
ghost use Rattle.slot_laws.specs.FreeSlots.{AreFreeSlots};
ghost use Rattle.slot_laws.specs.UnchangedSlots.{HasSameSlots, AreAllFree};
ghost use Rattle.slot_laws.specs.SlotTables.{SlotRow, entries_of, IsTableOf, IsTableIn, slot_table, AreTablesIn, AreTablesOf, GainsRow, HaveDistinctIds, AreInSlots, AreRead};

/// A free slot that is filled adds its object to the members, if no member had its key. The call does
/// nothing.
pub fn filling_adds()
    ensures { (space : Space) (cap slot c id : ℕ) (object : List ℕ) (old new : ℕ → List ℕ) (members : Members)
        → HoldsMembers space cap old members → slot < cap → slot_at old slot ≡ Free → lookup (is_at (key_cmp (c, id))) members ≡ None
        → id < 2 ^ 32 → IsValid space object → SetsSlot slot (Holds c id object) old new
        → HoldsMembers space cap new (with_object members c id object) }
{}

/// A filled slot that is cleared takes its object from the members. The call does nothing.
pub fn clearing_removes()
    ensures { (space : Space) (cap slot c id : ℕ) (object : List ℕ) (old new : ℕ → List ℕ) (members : Members)
        → HoldsMembers space cap old members → slot < cap → slot_at old slot ≡ Holds c id object → SetsSlot slot Free old new
        → HoldsMembers space cap new (without_object members c id) }
{}

/// The object in a slot is the one that its member has. The call does nothing.
pub fn slots_give_objects()
    ensures { (space : Space) (cap slot c id : ℕ) (object : List ℕ) (home : ℕ → List ℕ) (members : Members)
        → HoldsMembers space cap home members → slot < cap → slot_at home slot ≡ Holds c id object
        → lookup (is_at (key_cmp (c, id))) members ≡ Some object }
{}

/// A filled slot is of one of the four collections. The call does nothing.
pub fn slots_are_of_collections()
    ensures { (home : ℕ → List ℕ) (slot c id : ℕ) (object : List ℕ) → slot_at home slot ≡ Holds c id object → c < 4 }
{}

/// There are as many slots as members and free slots together. The call does nothing.
pub fn slots_are_counted()
    ensures { (space : Space) (cap : ℕ) (home : ℕ → List ℕ) (members : Members) (free : List ℕ)
        → HoldsMembers space cap home members → AreFreeSlots cap (slot_at home) free → length members + length free ≡ cap }
{}

/// A slot from the list of the free ones reads as free. The call does nothing.
pub fn free_slots_read_as_free()
    ensures { (cap : ℕ) (slots : ℕ → Slot) (free rest : List ℕ) (slot : ℕ)
        → AreFreeSlots cap slots free → IsPermutation free (slot ∷ rest) → (slot < cap) × (slots slot ≡ Free) }
{}

/// A filled slot isn't in the list of the free ones. The call does nothing.
pub fn filled_slots_are_live()
    ensures { (cap : ℕ) (slots : ℕ → Slot) (free : List ℕ) (slot c id : ℕ) (object : List ℕ)
        → AreFreeSlots cap slots free → slot < cap → slots slot ≡ Holds c id object → IsTrue (is_live (is_slot cap) free slot) }
{}

/// Filling a slot takes it from the free ones. The call does nothing.
pub fn filling_takes_a_free_slot()
    ensures { (cap slot c id : ℕ) (object : List ℕ) (old new : ℕ → List ℕ) (free rest : List ℕ)
        → AreFreeSlots cap (slot_at old) free → IsPermutation free (slot ∷ rest) → SetsSlot slot (Holds c id object) old new
        → AreFreeSlots cap (slot_at new) rest }
{}

/// Clearing a slot adds it to the free ones. The call does nothing.
pub fn clearing_frees_a_slot()
    ensures { (cap slot c id : ℕ) (object : List ℕ) (old new : ℕ → List ℕ) (free more : List ℕ)
        → AreFreeSlots cap (slot_at old) free → slot < cap → slot_at old slot ≡ Holds c id object → IsPermutation more (slot ∷ free)
        → SetsSlot slot Free old new → AreFreeSlots cap (slot_at new) more }
{}

/// The tables of the four collections give the members: no two rows of a table have the same id, and the
/// object of a member is that of the row with its id. The call does nothing.
pub fn tables_give_members()
    ensures members { (space : Space) (cap : ℕ) (home : ℕ → List ℕ) (members : Members) (tables : List (List SlotRow))
        → HoldsMembers space cap home members → length tables ≡ 4 → AreTablesOf cap home tables → members ≡ members_of (map entries_of tables) }
    ensures ids { (space : Space) (cap c : ℕ) (home : ℕ → List ℕ) (members : Members) (table : List SlotRow)
        → HoldsMembers space cap home members → IsTableOf cap home c table → HasDistinctEntryIds (entries_of table) }
    ensures objects { (space : Space) (cap c id : ℕ) (home : ℕ → List ℕ) (members : Members) (tables : List (List SlotRow))
        → HoldsMembers space cap home members → length tables ≡ 4 → AreTablesOf cap home tables
        → lookup (is_at (key_cmp (c, id))) members ≡ object_with_id (entries_of (slot_table tables c)) id }
{}

/// The slot of each row of a table holds the row's object, under the table's collection and the row's id:
/// of all rows, of one, and of the one at a place if slots and rows stand side by side. The call does
/// nothing.
pub fn rows_are_in_slots()
    ensures all { (cap : ℕ) (slots : ℕ → Slot) (c : ℕ) (table : List SlotRow) → IsTableIn cap slots c table → AreInSlots cap slots c table }
    ensures one { (cap : ℕ) (slots : ℕ → Slot) (c : ℕ) (table : List SlotRow) (slot id : ℕ) (object : List ℕ)
        → IsTableIn cap slots c table → Contains table (slot, (id, object)) → (slot < cap) × (slots slot ≡ Holds c id object) }
    ensures place { (cap : ℕ) (slots : ℕ → Slot) (c : ℕ) (numbers : List ℕ) (entries : List Entry) (place n : ℕ) (row : Entry)
        → IsTableIn cap slots c (zip numbers entries) → length entries ≡ length numbers → place < length entries
        → (slice_index_or numbers place n < cap)
        × (slots (slice_index_or numbers place n) ≡ Holds c (slice_index_or entries place row).0 (slice_index_or entries place row).1) }
{}

/// Filling a slot adds a row to the table of its collection. The call does nothing.
pub fn filling_adds_a_row()
    ensures { (cap slot c id : ℕ) (object : List ℕ) (old new : ℕ → List ℕ) (tables more : List (List SlotRow))
        → AreTablesOf cap old tables → slot < cap → slot_at old slot ≡ Free → SetsSlot slot (Holds c id object) old new
        → GainsRow c (slot, (id, object)) tables more → AreTablesOf cap new more }
{}

/// Clearing a slot takes a row from the table of its collection. The call does nothing.
pub fn clearing_takes_a_row()
    ensures { (cap slot c id : ℕ) (object : List ℕ) (old new : ℕ → List ℕ) (tables fewer : List (List SlotRow))
        → AreTablesOf cap old tables → slot < cap → slot_at old slot ≡ Holds c id object → SetsSlot slot Free old new
        → GainsRow c (slot, (id, object)) fewer tables → AreTablesOf cap new fewer }
{}

/// A table that is put in the place of another, with one row more or one less. The call does nothing.
pub fn tables_are_replaced()
    ensures gains { (tables : List (List SlotRow)) (c : ℕ) (row : SlotRow) (more : List SlotRow) → c < length tables
        → IsPermutation more (row ∷ slot_table tables c) → GainsRow c row tables (slice_set tables c more) }
    ensures loses { (tables : List (List SlotRow)) (c : ℕ) (row : SlotRow) (fewer : List SlotRow) → c < length tables
        → IsPermutation (slot_table tables c) (row ∷ fewer) → GainsRow c row (slice_set tables c fewer) tables }
{}

/// Slots and rows side by side, with one more of both at a place, or one less. The call does nothing.
pub fn rows_stand_beside_slots()
    ensures rows { (numbers : List ℕ) (entries : List Entry) → length entries ≡ length numbers → entries_of (zip numbers entries) ≡ entries }
    ensures insert { (numbers : List ℕ) (entries : List Entry) (place slot : ℕ) (row : Entry) → length entries ≡ length numbers
        → IsPermutation (zip (insert numbers place slot) (insert entries place row)) ((slot, row) ∷ zip numbers entries) }
    ensures remove { (numbers : List ℕ) (entries : List Entry) (place n : ℕ) (row : Entry) → length entries ≡ length numbers → place < length entries
        → IsPermutation (zip numbers entries)
        ((slice_index_or numbers place n, slice_index_or entries place row) ∷ zip (remove numbers place) (remove entries place)) }
{}

/// Tables stay those of the slots in any order of their rows, and no two rows have the same id if the ids
/// rise. The call does nothing.
pub fn tables_are_sorted()
    ensures order { (cap : ℕ) (slots : ℕ → Slot) (tables others : List (List SlotRow)) → AreTablesIn cap slots tables
        → ((c : ℕ) → c < 4 → IsPermutation (slot_table others c) (slot_table tables c)) → AreTablesIn cap slots others }
    ensures ids { (entries : List Entry) → AllPairs (λ a b. a.0 < b.0) entries → HasDistinctEntryIds entries }
{}

/// Of two rows of a table with the same id, the one of the greater slot holds again what the other holds.
/// The call does nothing.
pub fn repeated_ids_are_held_again()
    ensures { (cap : ℕ) (slots : ℕ → Slot) (c : ℕ) (table : List SlotRow) (lower slot id : ℕ) (first second : List ℕ)
        → IsTableIn cap slots c table → Contains table (lower, (id, first)) → Contains table (slot, (id, second)) → lower < slot
        → HoldsAgain slots slot }
{}

/// Slots that can be read hold the members that their tables give, if no two rows of a table have the same
/// id. The call does nothing.
pub fn read_slots_are_members()
    ensures { (space : Space) (cap : ℕ) (home : ℕ → List ℕ) (tables : List (List SlotRow))
        → ((slot : ℕ) → slot < cap → IsReadable space (slot_at home slot)) → length tables ≡ 4 → AreTablesOf cap home tables
        → HaveDistinctIds tables → HoldsMembers space cap home (members_of (map entries_of tables)) }
{}

/// What is known of the slots as they are read one after another: before the first one, after a free one,
/// and after a filled one. The call does nothing.
pub fn slots_are_read_in_turn()
    ensures first { (space : Space) (slots : ℕ → Slot) (tables : List (List SlotRow)) → ((c : ℕ) → c < 4 → slot_table tables c ≡ [])
        → AreRead space 0 slots tables [] }
    ensures free { (space : Space) (n : ℕ) (slots : ℕ → Slot) (tables : List (List SlotRow)) (free more : List ℕ)
        → AreRead space n slots tables free → slots n ≡ Free → IsPermutation more (n ∷ free) → AreRead space (n + 1) slots tables more }
    ensures filled { (space : Space) (n c id : ℕ) (object : List ℕ) (slots : ℕ → Slot) (tables more : List (List SlotRow)) (free : List ℕ)
        → AreRead space n slots tables free → slots n ≡ Holds c id object → id < 2 ^ 32 → IsValid space object
        → GainsRow c (n, (id, object)) tables more → AreRead space (n + 1) slots more free }
{}

/// Once all slots are read, they hold members exactly if no two rows of a table have the same id, and the
/// members are those of the tables. The call does nothing.
pub fn slots_are_read()
    ensures members { (space : Space) (cap : ℕ) (home : ℕ → List ℕ) (tables : List (List SlotRow)) (free : List ℕ)
        → AreRead space cap (slot_at home) tables free → length tables ≡ 4 → HaveDistinctIds tables
        → HoldsMembers space cap home (members_of (map entries_of tables)) }
    ensures ids { (space : Space) (cap : ℕ) (home : ℕ → List ℕ) (members : Members) (tables : List (List SlotRow)) (free : List ℕ)
        → HoldsMembers space cap home members → AreRead space cap (slot_at home) tables free → HaveDistinctIds tables }
{}

/// What the slots hold doesn't change while each of them reads the same. The call does nothing.
pub fn same_slots_hold_the_same()
    ensures members { (space : Space) (cap : ℕ) (old new : ℕ → List ℕ) (members : Members)
        → HoldsMembers space cap old members → HasSameSlots cap (slot_at old) (slot_at new) → HoldsMembers space cap new members }
    ensures tables { (cap : ℕ) (old new : ℕ → Slot) (tables : List (List SlotRow))
        → AreTablesIn cap old tables → HasSameSlots cap old new → AreTablesIn cap new tables }
    ensures free { (cap : ℕ) (old new : ℕ → Slot) (free : List ℕ)
        → AreFreeSlots cap old free → HasSameSlots cap old new → AreFreeSlots cap new free }
{}

/// Slots that are all free hold no members. The call does nothing.
pub fn free_slots_hold_nothing()
    ensures members { (space : Space) (cap : ℕ) (home : ℕ → List ℕ) → AreAllFree cap (slot_at home) → HoldsMembers space cap home [] }
    ensures tables { (cap : ℕ) (slots : ℕ → Slot) (tables : List (List SlotRow)) → AreAllFree cap slots
        → ((c : ℕ) → c < 4 → slot_table tables c ≡ []) → AreTablesIn cap slots tables }
    ensures free { (cap : ℕ) (slots : ℕ → Slot) → AreAllFree cap slots → AreFreeSlots cap slots (range_with_len 0 cap) }
{}
