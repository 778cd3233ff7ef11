//! The built-in spaces and their metrics.
#![tactic(auto)]

ghost use Rattle.std.specs.Prelude.{◌≡◌, IsTrue};
ghost use Rattle.metrics_builtin.specs.Space.{fits, top, bits, IsBitCount};

pub mod sets;
pub mod strings;
pub mod vectors;

pub use sets::SetDiff;
pub use strings::Hamming;
pub use vectors::{L1, LInf, component};

/// Which byte strings are objects, and how far two of them are apart.
#[derive(Clone, Copy, PartialEq, Eq, Debug)]
pub enum Space {
    /// Vectors of `dim` components from 0 to `most`, an object's bytes being its components one
    /// after the other, each in four bytes, the highest first. The distance is the sum of the
    /// differences.
    L1 { dim: u32, most: u32 },
    /// The same vectors. The distance is the greatest of the differences.
    LInf { dim: u32, most: u32 },
    /// Strings of `len` bytes. The distance is the number of places in which they differ.
    Hamming { len: u32 },
    /// Sets of at most `most` numbers below `universe`, an object's bytes being its elements one after the other,
    /// ascending, each in four bytes, the highest first. The distance is the number of elements that are in exactly one
    /// of the two.
    Sets { universe: u32, most: u32 },
}

impl Space {
    /// Whether the numbers of the space are in range: `dim` from 1 to 30, `most` at least 1, and for
    /// `L1` their product, the greatest distance, at most 4294967295; `len` from 1 to 120; `universe`
    /// at least 1, and `most` of `Sets` from 1 to 30.
    pub fn fits(&self) -> bool
        ensures { result ≡ fits self.now }
    {
        match *self {
            Space::L1 { dim, most } => {
                1 <= dim && dim <= 30 && 1 <= most && dim as u64 * most as u64 <= u32::MAX as u64
            }
            Space::LInf { dim, most } => 1 <= dim && dim <= 30 && 1 <= most,
            Space::Hamming { len } => 1 <= len && len <= 120,
            Space::Sets { universe, most } => 1 <= universe && 1 <= most && most <= 30,
        }
    }

    /// The greatest distance that two objects of the space may have.
    pub fn top(&self) -> u32
        requires { IsTrue (fits self.now) }
        ensures { result ≡ top self.now }
    {
        match *self {
            Space::L1 { dim, most } => dim * most,
            Space::LInf { most, .. } => most,
            Space::Hamming { len } => len,
            Space::Sets { universe, most } => universe.min(2 * most),
        }
    }

    /// The least number of bits, at least one, that hold every distance: 1 to 32.
    pub fn bits(&self) -> u8
        requires { IsTrue (fits self.now) }
        ensures value { result ≡ bits self.now }
        ensures least { IsBitCount (top self.now) result }
    {
        self.top().ilog2() as u8 + 1
    }
}
