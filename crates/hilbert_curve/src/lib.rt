//! The Hilbert curve over 1 to 8 axes.
//!
//! The curve numbers the cells of a grid so that neighbouring keys have neighbouring cells. It is
//! drawn by parts: a key is cut into groups of one bit for each axis, and each group says into which
//! part of the present cube the curve goes next, where it enters it, and along which axis it runs
//! through it. Tables say this for the first orientation of the cube, and a turn and a xor carry it
//! to the others.
#![tactic(auto)]

ghost use Rattle.std.specs.Prelude.{◌≡◌, ◌+◌, ◌*◌, List, [], ◌∷◌, Some, None, true, false, map};
ghost use Rattle.std.specs.List.{range_with_len};
ghost use Rattle.hilbert_curve.specs.Curve.{hilbert_cell, hilbert_key, IsStep};
ghost use Rattle.hilbert_curve.specs.Tables.{gray, entry, direction};

mod hilbert;
mod lanes;
mod rows;
mod walk;

pub use hilbert::Hilbert;
pub use walk::walk_state;

/// Tables, cells of keys, keys of cells and steps that are known: the definitions compute them. The
/// call does nothing.
///
/// A cube of two bits shows where the curve enters and leaves each of its eight parts, which its
/// laws leave open.
#[tactic(auto, unfolding(crate::specs::Curve::hilbert_cell, crate::specs::Curve::hilbert_key, crate::specs::Curve::IsStep, crate::specs::Curve::rotated, crate::specs::Curve::cell_bits, crate::specs::Curve::next_entry, crate::specs::Curve::next_direction, crate::specs::Curve::group_of))]
pub fn worked_rows()
    ensures plane { map (hilbert_cell 2 2) (range_with_len 0 16)
        ≡ (0 ∷ 0 ∷ []) ∷ (1 ∷ 0 ∷ []) ∷ (1 ∷ 1 ∷ []) ∷ (0 ∷ 1 ∷ []) ∷ (0 ∷ 2 ∷ []) ∷ (0 ∷ 3 ∷ []) ∷ (1 ∷ 3 ∷ []) ∷ (1 ∷ 2 ∷ [])
        ∷ (2 ∷ 2 ∷ []) ∷ (2 ∷ 3 ∷ []) ∷ (3 ∷ 3 ∷ []) ∷ (3 ∷ 2 ∷ []) ∷ (3 ∷ 1 ∷ []) ∷ (2 ∷ 1 ∷ []) ∷ (2 ∷ 0 ∷ []) ∷ (3 ∷ 0 ∷ []) ∷ [] }
    ensures cube { map (hilbert_cell 3 1) (range_with_len 0 8)
        ≡ (0 ∷ 0 ∷ 0 ∷ []) ∷ (0 ∷ 1 ∷ 0 ∷ []) ∷ (0 ∷ 1 ∷ 1 ∷ []) ∷ (0 ∷ 0 ∷ 1 ∷ [])
        ∷ (1 ∷ 0 ∷ 1 ∷ []) ∷ (1 ∷ 1 ∷ 1 ∷ []) ∷ (1 ∷ 1 ∷ 0 ∷ []) ∷ (1 ∷ 0 ∷ 0 ∷ []) ∷ [] }
    ensures gray_codes { map gray (range_with_len 0 8) ≡ 0 ∷ 1 ∷ 3 ∷ 2 ∷ 6 ∷ 7 ∷ 5 ∷ 4 ∷ [] }
    ensures entries { map entry (range_with_len 0 8) ≡ 0 ∷ 0 ∷ 0 ∷ 3 ∷ 3 ∷ 6 ∷ 6 ∷ 5 ∷ [] }
    ensures directions_of_2 { map (direction 2) (range_with_len 0 4) ≡ 0 ∷ 1 ∷ 1 ∷ 0 ∷ [] }
    ensures directions_of_3 { map (direction 3) (range_with_len 0 8) ≡ 0 ∷ 1 ∷ 1 ∷ 2 ∷ 2 ∷ 1 ∷ 1 ∷ 0 ∷ [] }
    ensures first_in_part { map (λ part. hilbert_cell 3 2 (8 * part)) (range_with_len 0 8)
        ≡ (0 ∷ 0 ∷ 0 ∷ []) ∷ (0 ∷ 2 ∷ 0 ∷ []) ∷ (0 ∷ 2 ∷ 2 ∷ []) ∷ (0 ∷ 1 ∷ 3 ∷ [])
        ∷ (2 ∷ 1 ∷ 3 ∷ []) ∷ (3 ∷ 2 ∷ 3 ∷ []) ∷ (3 ∷ 2 ∷ 1 ∷ []) ∷ (3 ∷ 1 ∷ 0 ∷ []) ∷ [] }
    ensures last_in_part { map (λ part. hilbert_cell 3 2 (8 * part + 7)) (range_with_len 0 8)
        ≡ (0 ∷ 1 ∷ 0 ∷ []) ∷ (0 ∷ 2 ∷ 1 ∷ []) ∷ (0 ∷ 2 ∷ 3 ∷ []) ∷ (1 ∷ 1 ∷ 3 ∷ [])
        ∷ (3 ∷ 1 ∷ 3 ∷ []) ∷ (3 ∷ 2 ∷ 2 ∷ []) ∷ (3 ∷ 2 ∷ 0 ∷ []) ∷ (3 ∷ 0 ∷ 0 ∷ []) ∷ [] }
    ensures bytes { hilbert_cell 8 8 81985529216486895 ≡ 75 ∷ 133 ∷ 21 ∷ 8 ∷ 83 ∷ 7 ∷ 49 ∷ 73 ∷ [] }
    ensures line { map (hilbert_cell 1 32) (0 ∷ 6 ∷ 4294967295 ∷ []) ≡ (0 ∷ []) ∷ (6 ∷ []) ∷ (4294967295 ∷ []) ∷ [] }
    ensures key { hilbert_key 2 2 (1 ∷ 2 ∷ []) ≡ 7 }
    ensures step { IsStep 2 2 7 (Some (0, true)) }
    ensures back { IsStep 2 2 12 (Some (0, false)) }
    ensures last { IsStep 2 2 15 None }
{}
