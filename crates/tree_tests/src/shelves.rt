//! The region of a range, and the cells of entries.
use bptree_node::Region;
use curve_laws::Vect;
use page_laws::Rule;
use query_shelf::{QueryError, QueryRegion, cell_of};
use z_curve::ZCurve;

// The cells (0, 0) to (3, 3) of 2 bits; the query (1, 2) with radius 1 meets those from (0, 1) to (2, 3).
#[test]
fn the_region_of_a_range(rt: HostRuntime) {
    let curve = ZCurve { n: 2, b: 2 };
    let asked = Vect::of(&[1, 2]);
    let region = QueryRegion {
        curve: &curve,
        asked: &asked,
        r: 1,
    };
    assert!(rt; region.meets(0, 3));
    assert!(rt; !region.meets(8, 8));
    assert!(rt; region.meets(3, 0));
    assert!(rt; region.has(1));
    assert!(rt; !region.has(0));
    assert!(rt; region.has(16));
    let stray = QueryError::Damaged {
        page: 1,
        rule: Rule::Key,
    };
    assert!(rt; cell_of(&curve, 16) == Err(stray));
}
