//! The window.
ghost use Rattle.join_window.specs.declared.window.Reaching.{Reaching};

use bptree_node::Entry;
use curve_laws::Vect;
use spb_edge::Memory;
use std::alloc::Global;
use std::marker::Model;

/// An entry with its cell and how far it reaches.
#[derive(Clone, Copy, Debug, Drop)]
pub struct Reaching {
    /// The key of its upper corner.
    pub upper: u64,
    /// The entry.
    pub entry: Entry,
    /// The cell of the entry's key.
    pub cell: Vect,
}

/// Entries that may still pair with a later one, in the order in which they came. Contracts see a list.
#[derive(Debug, Drop)]
pub struct Window(Vec<Reaching>);

impl Model for Window {
    ghost use Rattle.std.specs.Prelude.{List};
    ghost use Rattle.join_window.specs.declared.window.Reaching.{Reaching};

    ghost Value = { List Reaching };

    ghost view = { λ w. w.0.items };
}

impl Window {
    ghost use Rattle.std.specs.Prelude.{◌≡◌, ◌++◌, ◌∷◌, [], OnOk, OnErr, filter};
    ghost use Rattle.join_window.specs.WindowPairs.{reaches};

    /// A window without entries. It takes no memory.
    pub fn new(alloc: Global) -> Window
        ensures { result ≡ [] }
    {
        Window(Vec::new(alloc))
    }

    /// Lets those entries go that don't reach the key. It looks at each entry once and takes no memory.
    pub fn keep_reaching(&mut self, key: u64)
        ensures { self.new ≡ filter (reaches key) self.old }
    {
        self.0.retain(|held| key <= held.upper);
    }

    /// Adds an entry behind the others. If its memory is refused, the window stays as it was.
    pub fn add(&mut self, entry: Reaching) -> Result<(), Memory>
        ensures added { OnOk result (self.new ≡ self.old ++ (entry ∷ [])) }
        ensures refused { OnErr result (self.new ≡ self.old) }
    {
        self.0.push(entry)?;
        Ok(())
    }

    /// The entries, in the order in which they came.
    pub fn entries(&self) -> &[Reaching]
        ensures { result.now ≡ self.now }
    {
        self.0.as_slice()
    }
}
