//! How the entries of a tree are summarised, and how a branch keeps the summary.
ghost use Rattle.std.specs.Prelude.{◌≡◌, ℕ, Option};
ghost use Rattle.bptree_node.specs.declared.rows.Entry.{Entry};
ghost use Rattle.bptree_node.specs.Summaries.{AreBoxes};

use crate::{Entry, Summary};

/// The summaries of a tree's entries, which its branches keep as two keys.
///
/// Those made of single entries, of branches and by joining have one size, and are given back by their
/// keys.
pub trait Boxes<S: Summary> {
    // the summary of an entry, if its key is one of the tree
    ghost entry_box: { Self → Entry → Option S };

    // the summary that a branch's corners give, if they are those of a box
    ghost branch_box: { Self → ℕ → ℕ → Option S };

    // the keys of a summary
    ghost keys_of: { Self → S → ℕ × ℕ };

    // whether the summary is made of entries, of branches or by joining
    ghost is_made: { Self → S → Type 0 };

    // how many coordinates the summaries have
    ghost width: { Self → ℕ };

    /// The summary of an entry, or None if its key is none of the tree.
    fn of_entry(&self, e: &Entry) -> Option<S>
        ensures { result ≡ entry_box self.now e.now };

    /// The summary that a branch keeps as two keys, or None if they are those of no box.
    fn of_branch(&self, low: u64, high: u64) -> Option<S>
        ensures { result ≡ branch_box self.now low high };

    /// The two keys of a summary.
    fn as_keys(&self, s: &S) -> (u64, u64)
        requires { is_made self.now s.now }
        ensures { result ≡ keys_of self.now s.now };

    // the summaries have one size, and are given back by their keys
    ghost box_laws: { (f : Self) → AreBoxes (S.size) (S.joined) (entry_box f) (branch_box f) (keys_of f) (is_made f) (width f) };
}
