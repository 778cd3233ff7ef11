//! A source for tests that never ends.
ghost use Rattle.std.specs.Prelude.{◌≡◌, ◌<◌, None, length, replicate};
ghost use Rattle.spb_edge.specs.Source.{GivesBytes, IsCountWithin, CountsFault};
ghost use Rattle.spb_edge.specs.declared.source.Take.TheVariants.{Got};

use crate::{Source, Take};

/// A source that gives one byte again and again. It never fails and never ends, and its content
/// isn't known.
#[derive(Clone, Copy, Debug, PartialEq, Eq)]
pub struct EndlessSource {
    /// The byte.
    pub byte: u8,
}

impl Source for EndlessSource {
    ghost left = { λ _. None };

    ghost faults = { λ _. 0 };

    fn take(&mut self, into: &mut [u8]) -> Take
        requires { 0 < length into.old }
        ensures within { IsCountWithin result (length into.old) }
        ensures gives { GivesBytes result into.new None None }
        ensures fault { CountsFault result 0 0 }
        // Each call fills the whole buffer with the byte.
        ensures fills { (result ≡ Got (length into.old)) × (into.new ≡ replicate (length into.old) self.old.byte) }
        ensures same { self.new ≡ self.old }
    {
        into.fill(self.byte);
        Take::Got(into.len())
    }
}
