//! Sources.
ghost use Rattle.std.specs.Prelude.{ℕ, ◌<◌, List, Option, length};

/// What a call of [`Source::take`] answers.
#[derive(Clone, Copy, Debug, PartialEq, Eq)]
pub enum Take {
    /// This many bytes, at least one, are at the start of the buffer.
    Got(usize),
    /// Nothing is left.
    End,
    /// Nothing was taken, and the source counted a fault.
    Failed,
}

/// Where bytes come from, in pieces of any size.
pub trait Source {
    ghost use Rattle.std.specs.Prelude.{ℕ, ◌<◌, List, Option, length};
    ghost use Rattle.spb_edge.specs.Source.{GivesBytes, IsCountWithin, CountsFault};

    // the bytes left, if they are known
    ghost left: { Self → Option (List ℕ) };

    // how many calls failed so far
    ghost faults: { Self → ℕ };

    /// Takes the next bytes into the start of `into`, which isn't empty.
    fn take(&mut self, into: &mut [u8]) -> Take
        requires { 0 < length into.old }
        ensures within { IsCountWithin result (length into.old) }
        ensures gives { GivesBytes result into.new (left self.old) (left self.new) }
        ensures fault { CountsFault result (faults self.old) (faults self.new) };
}
