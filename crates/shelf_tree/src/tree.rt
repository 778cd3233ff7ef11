//! The tree and the slots of a collection.

use crate::rows::read_level;
use bptree_node::Entry;
use curve_laws::{Curve, Vect};
use metric_laws::Ruler;
use near_search::{Best, Hierarchy, Queue};
use object_file::ObjectFile;
use page_laws::{PAGE_SIZE, Pages, Root};
use query_shelf::{QueryError, read_object};
use spb_edge::{Bytes, Memory};

/// One collection of a shelf: the nodes of its curve tree by their level and page, with the bounds of
/// their boxes for a query, and its objects by their slots.
///
/// A node is read as it is opened, and its rows go into the queue without a list between; an object is
/// read as it is measured. Damaged comes if a page that was read isn't a node of its level (`node`), has a
/// child that isn't live (`page`), corners of no box (`box`), or an entry whose key is none of the curve
/// (`key`) or whose slot is free (`slot`), each named by that page; and by the rule `slot` and the slot's
/// page if the slot holds no object of this collection and id that the ruler admits.
pub struct CurveTree<'a, P, C> {
    /// The pages.
    pub pages: &'a mut P,
    /// The slots that the objects stand in.
    pub objects: &'a ObjectFile,
    /// The curve.
    pub curve: &'a C,
    /// The query's distances to the pivots: as many as the curve has coordinates.
    pub asked: &'a Vect,
    /// The collection.
    pub collection: u8,
    /// The root of its curve tree.
    pub root: Root,
    /// Where the objects are read to.
    pub object: &'a mut Bytes,
}

impl<'a, P: Pages, C: Curve> Hierarchy for CurveTree<'a, P, C> {
    ghost use Rattle.shelf_tree.specs.Contents.{TreeContent, nodes_of, object_at_slot, IsSoundNode};
    ghost use Rattle.shelf_tree.specs.Contents as contents;
    ghost use Rattle.shelf_tree.specs.Breaches as breaches;
    ghost use Rattle.shelf_tree.specs.TreeCalls as calls;
    ghost use Rattle.shelf_tree.specs.CallLaws as laws;

    type Error = QueryError;

    ghost Content = { TreeContent };

    ghost content = { contents.content_of P.Pages C.Curve };

    ghost is_known = { λ s. s.is_known };

    ghost nodes = { nodes_of };

    ghost object_at = { object_at_slot };

    ghost can_open = { breaches.CanOpen };

    ghost can_measure = { breaches.CanMeasure };

    ghost suits = { λ s admitted. Unit {0} };

    ghost is_sound = { IsSoundNode };

    ghost Follows = { calls.Follows P.Pages };

    ghost Fails = { calls.Fails P.Pages };

    ghost TellsOfNode = { breaches.TellsOfNode };

    ghost TellsOfObject = { breaches.TellsOfObject };

    ghost follows_itself = { laws.follows_itself P.calm_same P.calm_chains };

    ghost follows_after = { laws.follows_after P.calm_same P.calm_chains };

    ghost fails_after = { laws.fails_after P.calm_same P.calm_chains };

    fn out_of_memory(&self, memory: Memory) -> QueryError {
        QueryError::from(memory)
    }

    fn measure<R: Ruler>(
        &mut self,
        id: u32,
        place: u32,
        ruler: &mut R,
        q: &[u8],
    ) -> Result<u32, QueryError> {
        let entry = Entry {
            key: 0,
            id,
            slot: place,
        };
        read_object(
            self.pages,
            self.objects,
            self.collection,
            &entry,
            ruler,
            self.object,
        )?;
        Ok(ruler.measure(q, self.object.as_slice()))
    }

    fn open(
        &mut self,
        level: u8,
        place: u32,
        best: &Best,
        queue: &mut Queue,
    ) -> Result<(), QueryError> {
        let mut page = [0; PAGE_SIZE];
        self.pages.get(place, &mut page)?;
        let node = read_level(&page, level, place)?;
        if level == 0 {
            return self.put_objects(&node, place, best, queue);
        }
        self.put_children(&node, level, place, best, queue)
    }
}
