//! The nearest so far.
ghost use Rattle.std.specs.Prelude.{◌≤◌};
ghost use Rattle.std.specs.BinaryHeap.{IsHeap, heap_items, heap_len};
ghost use Rattle.std.specs.Ordering.{nat_cmp, ordering_then};
ghost use Rattle.std.proofs.Props.{props};

use answer_lists::Ranks;
use spb_edge::Memory;
use std::alloc::Global;
use std::collections::BinaryHeap;

/// The least of the ranks that were put in, at most `most` of them. It takes memory for one more than
/// these.
#[derive(Drop)]
pub struct Best {
    most: usize,
    heap: BinaryHeap<(u32, u32)>,
    ghost ordered: { IsHeap (λ a b. ordering_then (nat_cmp a.0 b.0) (nat_cmp a.1 b.1)) (heap_items heap) } by { Prim.hlevel props },
    ghost few: { heap_len heap ≤ most },
}

impl Best {
    ghost use Rattle.std.specs.Prelude.{◌≡◌, [], OnOk, nat_le, take, count_by};
    ghost use Rattle.answer_lists.specs.Order.{goes_before, with_inserted};
    ghost use Rattle.near_search.specs.Least.{least_of};

    /// None yet, and room for `most`.
    pub fn new(alloc: Global, most: u32) -> Best
        ensures most { result.most ≡ most }
        ensures ranks { least_of result ≡ [] }
    {
        Best {
            most: most as usize,
            heap: BinaryHeap::new(alloc),
        }
    }

    /// Whether `most` ranks go before this one, so that it is none of the least.
    pub fn shuts_out(&self, rank: (u32, u32)) -> bool
        ensures { result ≡ nat_le self.now.most (count_by (λ other. goes_before other rank) (least_of self.now)) }
    {
        if self.heap.len() < self.most {
            return false;
        }
        match self.heap.peek() {
            Some(greatest) => greatest.cmp(&rank).is_lt(),
            None => true,
        }
    }

    /// Adds the rank, and drops the greatest if there are then too many. It takes the time of a step in a heap, and
    /// less for a rank that is none of the least.
    pub fn put(&mut self, rank: (u32, u32)) -> Result<(), Memory>
        ensures most { self.new.most ≡ self.old.most }
        ensures ranks { OnOk result (least_of self.new ≡ take self.old.most (with_inserted goes_before rank (least_of self.old))) }
    {
        if self.shuts_out(rank) {
            return Ok(());
        }
        self.heap.push(rank)?;
        if self.most < self.heap.len() {
            self.heap.pop();
        }
        Ok(())
    }

    /// The ranks in order.
    pub fn into_ranks(self) -> Ranks
        ensures { result ≡ least_of self }
    {
        Ranks::from(self.heap.into_sorted_vec())
    }
}
