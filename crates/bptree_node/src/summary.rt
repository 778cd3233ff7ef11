//! What is kept of the entries under a branch.
ghost use Rattle.std.specs.Prelude.{◌≡◌, ℕ};
ghost use Rattle.bptree_node.specs.Summaries.{IsJoin};

/// What is kept of one or more entries, as the box around their cells. Two of one size are joined, in
/// any order and any number of times: the laws are proved for each type that implements it.
pub trait Summary: Copy {
    // how many coordinates there are
    ghost size: { Self → ℕ };

    // what is kept of the entries of both
    ghost joined: { Self → Self → Self };

    /// What is kept of the entries of both.
    fn join(&self, other: &Self) -> Self
        requires { size self.now ≡ size other.now }
        ensures { result ≡ joined self.now other.now };

    // joining is associative and commutative, and a summary joined with itself is the same
    ghost join_laws: { IsJoin size joined };
}

/// Nothing is kept of the entries.
#[derive(Clone, Copy, Debug, PartialEq, Eq)]
pub struct NoBox;

impl Summary for NoBox {
    ghost use Rattle.bptree_node.specs.NoBoxes.{no_join_laws};

    ghost size = { λ _. 0 };

    ghost joined = { λ a _. a };

    ghost join_laws = { no_join_laws };

    fn join(&self, _: &NoBox) -> NoBox {
        NoBox
    }
}
