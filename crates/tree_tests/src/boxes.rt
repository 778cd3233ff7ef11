//! Boxes of cells of a plane, worked by hand.
ghost use Rattle.std.specs.Prelude.{◌≡◌, [], ◌∷◌};
ghost use Rattle.box_corner.specs.Boxes.{point};

use box_corner::{CurveBoxes, IdBoxes, Rect};
use bptree_node::{Boxes, Entry, NoBox, Summary};
use curve_laws::{Curve, Vect};
use z_curve::ZCurve;

const PLANE: ZCurve = ZCurve { n: 2, b: 9 };

fn cell(x: u32, y: u32) -> Rect
    ensures { result ≡ point (x ∷ y ∷ []) }
{
    Rect::of(&Vect::of(&[x, y]))
}

#[test]
#[tactic(auto, unfolding(curve_laws::specs::Vectors::low_corner, curve_laws::specs::Vectors::high_corner))]
fn all_cells_are_joined(rt: HostRuntime) {
    let all = cell(0, 255)
        .join(&cell(7, 256))
        .join(&cell(10, 245))
        .join(&cell(200, 255))
        .join(&cell(255, 0));
    assert!(rt; all.low == Vect::of(&[0, 0]));
    assert!(rt; all.high == Vect::of(&[255, 256]));
}

#[test]
#[tactic(auto, unfolding(curve_laws::specs::Vectors::low_corner, curve_laws::specs::Vectors::high_corner))]
fn a_query_and_boxes(rt: HostRuntime) {
    let q = Vect::of(&[3, 252]);
    let near = cell(0, 245).join(&cell(10, 256));
    assert!(rt; near.lower_bound(&q) == 0);
    assert!(rt; near.meets_region(&q, 0));
    assert!(rt; cell(200, 255).lower_bound(&q) == 197);
    assert!(rt; cell(7, 256).meets_region(&q, 8));
    assert!(rt; !cell(200, 255).meets_region(&q, 8));
}

#[test]
fn sums_past_32_bits(rt: HostRuntime) {
    let far = Vect::of(&[4294967295]);
    let box_of_far = Rect::of(&far);
    assert!(rt; box_of_far.meets_region(&far, 4294967295));
    assert!(rt; box_of_far.lower_bound(&Vect::of(&[0])) == 4294967295);
}

#[test]
#[tactic(auto, unfolding(curve_laws::specs::Vectors::low_corner, curve_laws::specs::Vectors::high_corner))]
fn boxes_by_their_keys(rt: HostRuntime) {
    let boxes = CurveBoxes { curve: &PLANE };
    let both = cell(0, 255).join(&cell(7, 256));
    assert!(rt; boxes.of_branch(21845, 65578) == Some(both));
    assert!(rt; PLANE.has_cell(&both.low) && PLANE.has_cell(&both.high));
    assert!(rt; both.to_keys(&PLANE) == (21845, 65578));
    // The cells (200, 255) and (255, 0): the second coordinate falls.
    assert!(rt; boxes.of_branch(62933, 43690).is_none());
    assert!(rt; boxes.of_branch(0, 262144).is_none());
}

#[test]
fn entries_by_their_keys(rt: HostRuntime) {
    let boxes = CurveBoxes { curve: &PLANE };
    let entry = Entry {
        key: 65578,
        id: 7,
        slot: 1,
    };
    assert!(rt; boxes.of_entry(&entry) == Some(cell(7, 256)));
    assert!(rt;
        boxes
            .of_entry(&Entry {
                key: 262144,
                ..entry
            })
            .is_none()
    );
}

#[test]
fn ids_are_keys(rt: HostRuntime) {
    let entry = Entry {
        key: 7,
        id: 7,
        slot: 1,
    };
    assert!(rt; IdBoxes.of_entry(&entry) == Some(NoBox));
    assert!(rt; IdBoxes.of_entry(&Entry { id: 8, ..entry }).is_none());
    assert!(rt; IdBoxes.of_branch(0, 0) == Some(NoBox));
    assert!(rt; IdBoxes.of_branch(0, 1).is_none());
    assert!(rt; IdBoxes.as_keys(&NoBox) == (0, 0));
}
