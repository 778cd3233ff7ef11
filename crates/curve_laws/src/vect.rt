//! Vectors of a few coordinates.
ghost use Rattle.std.specs.Prelude.{◌≡◌, ℕ, ◌≤◌, ◌↔◌, ◌==◌, IsTrue, List, length};
ghost use Rattle.std.specs.Cmp.{partial_equiv_from_equiv};
ghost use Rattle.std.specs.Cmp.Lexicographic.{pointwise};
ghost use Rattle.std.proofs.lemmas.Cmp.{nat_list_eq_equiv};
ghost use Rattle.curve_laws.specs.Vectors.{IsUpTo, low_corner, high_corner};

use std::marker::Model;

/// At most 8 coordinates. It is as large as they all, and copies without memory.
#[derive(Clone, Copy, Debug)]
pub struct Vect {
    len: u8,
    at: [u32; 8],
}

impl Model for Vect {
    ghost use Rattle.std.specs.Prelude.{ℕ, List};

    ghost Value = { List ℕ };

    ghost use Rattle.curve_laws.specs.Fields.{coordinates_of, IsFilled, fields_of, fields_back};

    ghost view = { coordinates_of };

    ghost invariant = { IsFilled };

    ghost inverse = { fields_of };

    ghost inverse_ok = { fields_back };
}

impl Vect {
    /// The vector of these coordinates, at most 8.
    pub fn of(coordinates: &[u32]) -> Vect
        requires { length coordinates.now ≤ 8 }
        ensures { result ≡ coordinates.now }
    {
        let mut at = [0; 8];
        at[..coordinates.len()].copy_from_slice(coordinates);
        Vect {
            len: coordinates.len() as u8,
            at,
        }
    }

    /// The coordinates.
    pub fn as_slice(&self) -> &[u32]
        ensures coordinates { result.now ≡ self.now }
        ensures few { length self.now ≤ 8 }
    {
        &self.at[..self.len as usize]
    }
}

impl PartialEq for Vect {
    ghost eq = { pointwise ◌==◌ };

    ghost laws = { partial_equiv_from_equiv nat_list_eq_equiv };

    /// Whether the two have the same coordinates. It looks at each pair of them once.
    fn eq(&self, other: &Vect) -> bool
        ensures test { result ≡ pointwise ◌==◌ self.now other.now }
        ensures same { IsTrue result ↔ (self.now ≡ other.now) }
    {
        self.as_slice() == other.as_slice()
    }
}

impl Eq for Vect {
    ghost laws = { nat_list_eq_equiv };
}

/// The laws of the order of vectors, as a contract: the call does nothing.
///
/// The order is that of each coordinate. The low corner of two vectors, the least values of each
/// coordinate, is the greatest vector that exceeds neither in any coordinate; the high corner, the
/// greatest values, is the least one that neither exceeds.
pub fn vectors_are_ordered()
    ensures reflexive { (v : List ℕ) → IsUpTo v v }
    ensures transitive { (u v w : List ℕ) → IsUpTo u v → IsUpTo v w → IsUpTo u w }
    ensures antisymmetric { (v w : List ℕ) → IsUpTo v w → IsUpTo w v → v ≡ w }
    ensures one_length { (v w : List ℕ) → IsUpTo v w → length v ≡ length w }
    ensures low { (u v w : List ℕ) → length v ≡ length w → IsUpTo u (low_corner v w) ↔ (IsUpTo u v × IsUpTo u w) }
    ensures high { (u v w : List ℕ) → length v ≡ length w → IsUpTo (high_corner v w) u ↔ (IsUpTo v u × IsUpTo w u) }
{}
