//! Vectors that contracts see as lists.
ghost use Rattle.std.specs.Prelude.{◌≡◌, [], ◌++◌, IfOk, OnOk, OnErr};

use crate::Memory;
use std::alloc::Global;
use std::marker::Model;

/// A vector that contracts see as a list.
#[derive(Debug, Drop)]
pub struct Seq<T>(Vec<T>);

/// A string of bytes.
pub type Bytes = Seq<u8>;

/// A row of ids.
pub type Ids = Seq<u32>;

impl<T> Model for Seq<T> {
    ghost use Rattle.std.specs.Prelude.{List};

    ghost Value = { List T };

    ghost view = { λ s. s.0.items };
}

impl<T: Copy> Seq<T> {
    /// A copy of `items`.
    pub fn of(alloc: Global, items: &[T]) -> Result<Seq<T>, Memory>
        ensures { IfOk result (λ seq. seq ≡ items.now) }
    {
        Ok(Seq(Vec::from_slice(alloc, items)?))
    }

    /// Appends `items`. If memory runs out nothing changes.
    pub fn append(&mut self, items: &[T]) -> Result<(), Memory>
        ensures ok { OnOk result (self.new ≡ self.old ++ items.now) }
        ensures err { OnErr result (self.new ≡ self.old) }
    {
        Ok(self.0.extend_from_slice(items)?)
    }

    /// Takes all out. The room stays for what comes next.
    pub fn clear(&mut self)
        ensures { self.new ≡ [] }
    {
        self.0.clear();
    }

    /// The items.
    pub fn as_slice(&self) -> &[T]
        ensures { result.now ≡ self.now }
    {
        self.0.as_slice()
    }
}

impl<T: Copy> From<Vec<T>> for Seq<T> {
    ghost from_gives = { λ items seq. seq ≡ items.items };

    /// The items of a vector, as they are. It takes no memory.
    fn from(items: Vec<T>) -> Seq<T> {
        Seq(items)
    }
}
