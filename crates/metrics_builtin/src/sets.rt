//! Sets of numbers, and the number of elements in exactly one of two of them.

ghost use Rattle.std.specs.Prelude.{◌≡◌, ℕ, ◌↔◌, IsTrue};
ghost use Rattle.metrics_builtin.specs.declared.Space.{Space};
ghost use Rattle.metrics_builtin.specs.Space.{fits, IsValid, dist, top};
ghost use Rattle.metrics_builtin.specs.SpaceLaws.{is_metric};
ghost use Rattle.metrics_builtin.specs.Vectors.{components};
ghost use Rattle.metrics_builtin.specs.Sets.{IsSubset, IsRisingWithin, set_dist};

use crate::vectors::component;
use metric_laws::Metric;

/// The metric of a space `Space::Sets` that fits: the distance of two sets is the number of elements
/// that are in exactly one of them.
#[derive(Clone, Copy, Debug)]
pub struct SetDiff {
    /// The elements are below it; at least 1.
    pub universe: u32,
    /// How many elements a set may have, 1 to 30.
    pub most: u32,
    pub ghost in_range: { IsTrue (fits (Space.Sets universe most)) },
}

impl Metric for SetDiff {
    ghost admitted = { λ m. IsValid (Space.Sets m.universe m.most) };

    ghost dist = { λ m. dist (Space.Sets m.universe m.most) };

    ghost top = { λ m. top (Space.Sets m.universe m.most) };

    ghost metric_laws = { λ m. is_metric (Space.Sets m.universe m.most) m.in_range };

    /// Whether the object is a set of the space. It reads each byte at most once.
    fn admits(&self, object: &[u8]) -> bool {
        is_subset(self.universe, self.most, object)
    }

    /// The number of elements in exactly one of the two, by a merge of both.
    fn distance(&self, a: &[u8], b: &[u8]) -> u32 {
        count_of_one_sided(a, b) as u32
    }

    /// The lesser of the number of possible elements and twice the number that a set may have.
    fn top(&self) -> u32 {
        self.universe.min(2 * self.most)
    }
}

/// Whether the object has at most `most` ascending elements below `universe`.
fn is_subset(universe: u32, most: u32, object: &[u8]) -> bool
    ensures { IsTrue result ↔ IsSubset universe most object.now }
{
    let many = object.len() / 4;
    if object.len() != 4 * many {
        return false;
    }
    if many > most as usize {
        return false;
    }
    let mut least = 0;
    for place in 0..many {
        let element = component(object, place);
        if element < least {
            return false;
        }
        if element >= universe {
            return false;
        }
        least = element + 1;
    }
    true
}

/// How many elements are in exactly one of two objects of ascending elements. Each step of the merge goes past the
/// lesser element, and past both if they are equal.
fn count_of_one_sided(a: &[u8], b: &[u8]) -> usize
    ensures { (universe most : ℕ) → IsRisingWithin universe most (components a.now) → IsRisingWithin universe most (components b.now)
        → result ≡ set_dist universe (components a.now) (components b.now) }
{
    let (many, others) = (a.len() / 4, b.len() / 4);
    let (mut i, mut j, mut common) = (0, 0, 0);
    while i < many && j < others {
        let (x, y) = (component(a, i), component(b, j));
        common += usize::from(x == y);
        i += usize::from(x <= y);
        j += usize::from(y <= x);
    }
    many + others - 2 * common
}
