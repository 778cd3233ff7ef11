//! What a query is lent of a store.

use crate::{COLLECTIONS, ObjectFile};
use page_laws::Root;
use spb_edge::Bytes;

/// What a query is lent of a store: its pages, the slots of its objects, its curve and pivots, and the
/// roots of the collections' curve trees. It owns no memory.
pub struct Shelf<'a, P, C> {
    /// The pages.
    pub pages: &'a mut P,
    /// The slots that the objects stand in.
    pub objects: &'a ObjectFile,
    /// The curve, with a coordinate for each pivot.
    pub curve: &'a C,
    /// The pivots.
    pub pivots: &'a [Bytes],
    /// The root of each collection's curve tree.
    pub roots: [Root; COLLECTIONS as usize],
}
