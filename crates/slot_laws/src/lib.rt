//! What a change of one slot, and the reading of all of them, says of the members that the slots hold.
#![tactic(auto)]

mod change_laws;

pub use change_laws::{
    clearing_frees_a_slot, clearing_removes, clearing_takes_a_row, filled_slots_are_live,
    filling_adds, filling_adds_a_row, filling_takes_a_free_slot, free_slots_hold_nothing,
    free_slots_read_as_free, read_slots_are_members, repeated_ids_are_held_again,
    rows_are_in_slots, rows_stand_beside_slots, same_slots_hold_the_same, slots_are_counted,
    slots_are_of_collections, slots_are_read, slots_are_read_in_turn, slots_give_objects,
    tables_are_replaced, tables_are_sorted, tables_give_members,
};
