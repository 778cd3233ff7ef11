//! Rows, without nodes over them.
ghost use Rattle.std.specs.Prelude.{◌≡◌, true, ◌<◌, List, length, All};
ghost use Rattle.pivot_map.specs.declared.row.Row as vector_row;
ghost use Rattle.nn_query.specs.Listed.{object_at_place, empty_nodes};

use metric_laws::Ruler;
use near_search::{Best, Hierarchy, Queue};
use pivot_map::Row;
use spb_edge::Memory;

/// The objects of rows: each is at the place of its row. Nodes may be opened, but none holds anything.
#[derive(Clone, Copy)]
pub(crate) struct Rows<'a> {
    pub(crate) rows: &'a [Row],
}

impl<'a> Hierarchy for Rows<'a> {
    ghost use Rattle.std.proofs.Common.{refl, ◌∙◌};

    type Error = Memory;

    ghost Content = { List vector_row.Row };

    ghost content = { λ s. s.rows.now };

    ghost is_known = { λ rows. true };

    ghost nodes = { λ rows. empty_nodes };

    ghost object_at = { object_at_place };

    ghost can_open = { λ rows level place. Unit {0} };

    ghost can_measure = { λ rows id place. place < length rows };

    ghost suits = { λ rows admitted. All (λ (row : vector_row.Row). admitted row.object) rows };

    ghost is_sound = { λ rows level place. Unit {0} };

    ghost Follows = { λ n old new. new ≡ old };

    ghost Fails = { λ e old new. Unit {0} };

    ghost TellsOfNode = { λ rows e. Unit {0} };

    ghost TellsOfObject = { λ rows admitted e. Unit {0} };

    ghost follows_itself = { λ s. refl };

    ghost follows_after = { λ m n old mid new first second. second ∙ first };

    ghost fails_after = { λ n e old mid new first second. tt };

    fn out_of_memory(&self, memory: Memory) -> Memory {
        memory
    }

    fn measure<R: Ruler>(
        &mut self,
        _id: u32,
        place: u32,
        ruler: &mut R,
        q: &[u8],
    ) -> Result<u32, Memory> {
        let rows = self.rows;
        Ok(ruler.measure(q, rows[place as usize].object.as_slice()))
    }

    /// It is empty.
    fn open(
        &mut self,
        _level: u8,
        _place: u32,
        _best: &Best,
        _queue: &mut Queue,
    ) -> Result<(), Memory> {
        Ok(())
    }
}
