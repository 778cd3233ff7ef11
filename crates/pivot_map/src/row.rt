use curve_laws::Vect;
use spb_edge::Bytes;

/// An object of a collection under its id, with the cells of its distances to the pivots.
#[derive(Debug, Drop)]
pub struct Row {
    /// The id.
    pub id: u32,
    /// The object.
    pub object: Bytes,
    /// Its cells, in the order of the pivots. A cell is one distance.
    pub vect: Vect,
}
