//! The entries that a walk gives.
ghost use Rattle.std.specs.Prelude.{◌≡◌, ◌++◌, ◌∷◌, [], OnOk, filter};
ghost use Rattle.bptree_node.specs.declared.rows.Entry.{Entry};

use bptree_node::{Entry, Region};
use spb_edge::Memory;
use std::alloc::Global;
use std::marker::Model;

/// Entries in order, which contracts see as a list.
#[derive(Debug, Drop)]
pub struct Entries(Vec<Entry>);

impl Model for Entries {
    ghost use Rattle.std.specs.Prelude.{List};
    ghost use Rattle.bptree_node.specs.declared.rows.Entry.{Entry};

    ghost Value = { List Entry };

    ghost view = { λ e. e.0.items };
}

impl Entries {
    /// None yet. It takes no memory.
    pub(crate) fn new(alloc: Global) -> Entries
        ensures { result ≡ [] }
    {
        Entries(Vec::new(alloc))
    }

    /// Adds an entry behind the others if the region has its key.
    pub(crate) fn keep<G: Region>(&mut self, region: &G, entry: Entry) -> Result<(), Memory>
        ensures { OnOk result (self.new ≡ self.old ++ filter (λ (e : Entry). G.has_key region.now e.key) (entry ∷ [])) }
    {
        if region.has(entry.key) {
            self.0.push(entry)?;
        }
        Ok(())
    }

    /// The entries.
    pub fn as_slice(&self) -> &[Entry]
        ensures { result.now ≡ self.now }
    {
        self.0.as_slice()
    }
}
