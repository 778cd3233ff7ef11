//! What a pass over rows or pairs has found so far.

use crate::verdict::Verdict;
use spb_edge::Memory;
use std::alloc::Global;

/// What a pass has found so far: the names of what is within, such as ids or pairs of ids.
#[derive(Debug, Drop)]
pub struct Found<T> {
    /// The names of what is within, in the order of the pass.
    pub kept: Vec<T>,
    /// How many distances were evaluated.
    pub evals: u64,
    /// How many are within by the pivots alone.
    pub sure: u64,
}

impl<T: Drop> Found<T> {
    ghost use Rattle.std.specs.Prelude.{◌≡◌, ◌-◌, ◌^◌, ◌<◌, ◌∷◌, [], OnOk, OnErr};
    ghost use Rattle.query_pass.specs.Findings.{PassesOver, IsUnchanged};

    /// Nothing yet. It takes no memory.
    pub fn new(alloc: Global) -> Found<T>
        ensures kept { result.kept.items ≡ [] }
        ensures evals { result.evals ≡ 0 }
        ensures sure { result.sure ≡ 0 }
    {
        Found {
            kept: Vec::new(alloc),
            evals: 0,
            sure: 0,
        }
    }

    /// Counts one verdict more, and keeps the name of what is within. It takes memory for a name that
    /// it keeps; if that is refused, all stays as it was.
    pub fn note(&mut self, name: T, verdict: Verdict) -> Result<(), Memory>
        requires evals { self.old.evals < 2 ^ 64 - 1 }
        requires sure { self.old.sure < 2 ^ 64 - 1 }
        ensures noted { OnOk result (PassesOver (λ v. v) (λ v. name) (verdict ∷ []) self.old self.new) }
        ensures refused { OnErr result (IsUnchanged self.old self.new) }
    {
        if verdict.is_within() {
            self.kept.push(name)?;
        }
        self.evals += u64::from(verdict.was_measured());
        self.sure += u64::from(verdict.was_sure());
        Ok(())
    }
}
