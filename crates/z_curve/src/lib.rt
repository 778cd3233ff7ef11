//! The Z-order curve: its key takes one bit of each coordinate after the other.
#![tactic(auto)]

ghost use Rattle.std.specs.Prelude.{◌≡◌, [], ◌∷◌, map};
ghost use Rattle.z_curve.specs.ZOrder.{z_key, z_cell};

mod curve;
mod spacing;

pub use curve::ZCurve;

/// Keys of cells and cells of keys that are known: the definitions compute them. The call does
/// nothing.
#[tactic(auto, unfolding(crate::specs::ZOrder::z_key, crate::specs::ZOrder::low_bits, crate::specs::ZOrder::gathered, crate::specs::ZOrder::last_coordinates))]
pub fn worked_rows()
    ensures one { z_key 2 (1 ∷ 2 ∷ []) ≡ 6 }
    ensures keys { map (z_key 9) ((0 ∷ 255 ∷ []) ∷ (7 ∷ 256 ∷ []) ∷ (10 ∷ 245 ∷ []) ∷ (200 ∷ 255 ∷ []) ∷ (255 ∷ 0 ∷ []) ∷ [])
        ≡ 21845 ∷ 65578 ∷ 21913 ∷ 62933 ∷ 43690 ∷ [] }
    ensures cells { map (z_cell 2 9) (21845 ∷ 65578 ∷ 21913 ∷ 62933 ∷ 43690 ∷ [])
        ≡ (0 ∷ 255 ∷ []) ∷ (7 ∷ 256 ∷ []) ∷ (10 ∷ 245 ∷ []) ∷ (200 ∷ 255 ∷ []) ∷ (255 ∷ 0 ∷ []) ∷ [] }
    ensures cube { map (z_cell 3 1) (0 ∷ 1 ∷ 2 ∷ 3 ∷ 4 ∷ 5 ∷ 6 ∷ 7 ∷ [])
        ≡ (0 ∷ 0 ∷ 0 ∷ []) ∷ (0 ∷ 0 ∷ 1 ∷ []) ∷ (0 ∷ 1 ∷ 0 ∷ []) ∷ (0 ∷ 1 ∷ 1 ∷ [])
        ∷ (1 ∷ 0 ∷ 0 ∷ []) ∷ (1 ∷ 0 ∷ 1 ∷ []) ∷ (1 ∷ 1 ∷ 0 ∷ []) ∷ (1 ∷ 1 ∷ 1 ∷ []) ∷ [] }
    ensures three { z_key 2 (1 ∷ 2 ∷ 3 ∷ []) ≡ 29 }
    ensures bytes { z_cell 8 8 81985529216486895 ≡ 15 ∷ 51 ∷ 85 ∷ 0 ∷ 15 ∷ 51 ∷ 85 ∷ 255 ∷ [] }
    ensures line { map (z_key 32) ((0 ∷ []) ∷ (6 ∷ []) ∷ (4294967295 ∷ []) ∷ []) ≡ 0 ∷ 6 ∷ 4294967295 ∷ [] }
    ensures greatest { z_key 32 (4294967295 ∷ 4294967295 ∷ []) ≡ 18446744073709551615 }
    ensures eight { z_key 1 (1 ∷ 0 ∷ 0 ∷ 0 ∷ 0 ∷ 0 ∷ 0 ∷ 0 ∷ []) ≡ 128 }
{}
