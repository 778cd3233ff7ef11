//! The queue of a search.
ghost use Rattle.std.specs.Prelude.{◌≡◌, map};
ghost use Rattle.std.specs.BinaryHeap.{IsHeap, heap_items};
ghost use Rattle.std.proofs.Props.{props};
ghost use Rattle.near_search.specs.Queue.{least_rank};

use spb_edge::Memory;
use std::cmp::Reverse;
use std::collections::BinaryHeap;

/// What an item is: nodes go before objects, nodes of a lesser level before others, and objects by their ids.
#[derive(Clone, Copy, Debug, PartialEq, Eq, PartialOrd, Ord)]
pub enum Kind {
    /// A node, to be opened.
    Node {
        /// Its level.
        level: u8,
    },
    /// An object, to be measured.
    Object {
        /// Its id.
        id: u32,
    },
}

/// A node or an object that waits: a lower bound of the query's distance to all objects under it, and its place. It is
/// ordered by its bound, then its kind, then its place.
#[derive(Clone, Copy, Debug, PartialEq, Eq, PartialOrd, Ord)]
pub struct Waiting {
    /// The bound.
    pub bound: u32,
    /// What it is.
    pub kind: Kind,
    /// Where it is.
    pub place: u32,
}

impl Waiting {
    /// The least rank that an object under it may have: its bound, with the id of an object and 0 for a
    /// node.
    pub fn key(&self) -> (u32, u32)
        ensures { result ≡ least_rank self.now }
    {
        match self.kind {
            Kind::Node { .. } => (self.bound, 0),
            Kind::Object { id } => (self.bound, id),
        }
    }
}

/// The items that wait, sorted as they are taken out.
#[derive(Drop)]
pub struct Queue {
    heap: BinaryHeap<Reverse<Waiting>>,
    ghost ordered: { IsHeap ⟦<Reverse<Waiting> as Ord>⟧.cmp (heap_items heap) } by { Prim.hlevel props },
}

impl Queue {
    ghost use Rattle.std.specs.Prelude.{false, [], ◌∷◌, IfSome, IfNone, OnOk, IsPermutation};
    ghost use Rattle.std.specs.List.{AllByRecursion};
    ghost use Rattle.near_search.specs.Queue.{is_visited_before};
    ghost use Rattle.near_search.specs.Items.{items_of};

    /// These items. It takes time in proportion to them, and no memory.
    pub fn of(items: Vec<Reverse<Waiting>>) -> Queue
        ensures { IsPermutation (map (λ turned. turned.0) items.items) (items_of result) }
    {
        Queue {
            heap: BinaryHeap::from(items),
        }
    }

    /// Puts one in. It takes the time of a step in a heap, and memory for one item.
    pub fn put(&mut self, item: Waiting) -> Result<(), Memory>
        ensures { OnOk result (IsPermutation (item ∷ items_of self.old) (items_of self.new)) }
    {
        self.heap.push(Reverse(item))?;
        Ok(())
    }

    /// Takes the first one out. It takes the time of a step in a heap.
    pub fn next(&mut self) -> Option<Waiting>
        ensures some { IfSome result (λ first. IsPermutation (items_of self.old) (first ∷ items_of self.new)) }
        ensures first { IfSome result (λ first. AllByRecursion (λ w. is_visited_before w first ≡ false) (items_of self.new)) }
        ensures none { IfNone result (items_of self.old ≡ []) }
    {
        match self.heap.pop() {
            Some(first) => Some(first.0),
            None => None,
        }
    }
}
