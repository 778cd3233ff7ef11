//! What a store's file says of itself, and whether it keeps the rules.
#![tactic(auto)]

mod laws;
mod layout;
mod pivots;
mod profile;
mod profile_page;

pub use laws::{
    breaks_refute, empty_is_kept, empty_roots, keeps_moved, magic_and_least_size,
    no_store_breaks_nothing, no_store_refutes, one_state, read_profiles_are_in_range,
    slots_hold_members, sound_images_stand, stands_is_state, zero_records_are_empty,
};
pub use layout::{CAP_LIMIT, LEAST_SIZE, MAGIC, file_pages, pool_pages, slot_pages, worked_sizes};
pub use pivots::{pivot_page, read_pivot};
pub use profile::{Profile, ProfileFault, read_profile};
pub use profile_page::write_profile;
pub use spb_defs::CurveKind;
