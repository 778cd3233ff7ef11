//! Vectors of components in four bytes each, and their metrics.

ghost use Rattle.std.specs.Prelude.{◌≡◌, ◌+◌, ◌*◌, ◌^◌, ◌<◌, ◌≤◌, ◌↔◌, IsTrue, length, slice_index};
ghost use Rattle.metrics_builtin.specs.declared.Space.{Space};
ghost use Rattle.metrics_builtin.specs.Space.{fits, IsValid, dist, top};
ghost use Rattle.metrics_builtin.specs.SpaceLaws.{is_metric};
ghost use Rattle.metrics_builtin.specs.Vectors.{components, IsVector, l1_dist, linf_dist};

use metric_laws::Metric;

/// The metric of a space `Space::L1` that fits: the distance of two vectors is the sum of the
/// differences of their components.
#[derive(Clone, Copy, Debug)]
pub struct L1 {
    /// How many components a vector has, 1 to 30.
    pub dim: u32,
    /// The greatest component, at least 1.
    pub most: u32,
    pub ghost in_range: { IsTrue (fits (Space.L1 dim most)) },
}

impl Metric for L1 {
    ghost admitted = { λ m. IsValid (Space.L1 m.dim m.most) };

    ghost dist = { λ m. dist (Space.L1 m.dim m.most) };

    ghost top = { λ m. top (Space.L1 m.dim m.most) };

    ghost metric_laws = { λ m. is_metric (Space.L1 m.dim m.most) m.in_range };

    /// Whether the object is a vector of the space. It reads each byte at most once.
    fn admits(&self, object: &[u8]) -> bool {
        is_vector(self.dim, self.most, object)
    }

    /// The sum of the differences, in one pass over both objects.
    fn distance(&self, a: &[u8], b: &[u8]) -> u32 {
        sum_of_differences(self.dim, a, b)
    }

    /// The number of components times the greatest of them.
    fn top(&self) -> u32 {
        self.dim * self.most
    }
}

/// The metric of a space `Space::LInf` that fits: the distance of two vectors is the greatest of the
/// differences of their components.
#[derive(Clone, Copy, Debug)]
pub struct LInf {
    /// How many components a vector has, 1 to 30.
    pub dim: u32,
    /// The greatest component, at least 1.
    pub most: u32,
    pub ghost in_range: { IsTrue (fits (Space.LInf dim most)) },
}

impl Metric for LInf {
    ghost admitted = { λ m. IsValid (Space.LInf m.dim m.most) };

    ghost dist = { λ m. dist (Space.LInf m.dim m.most) };

    ghost top = { λ m. top (Space.LInf m.dim m.most) };

    ghost metric_laws = { λ m. is_metric (Space.LInf m.dim m.most) m.in_range };

    /// Whether the object is a vector of the space. It reads each byte at most once.
    fn admits(&self, object: &[u8]) -> bool {
        is_vector(self.dim, self.most, object)
    }

    /// The greatest of the differences, in one pass over both objects.
    fn distance(&self, a: &[u8], b: &[u8]) -> u32 {
        greatest_difference(self.dim, a, b)
    }

    /// The greatest component.
    fn top(&self) -> u32 {
        self.most
    }
}

/// Whether the object has `dim` components, none past `most`.
fn is_vector(dim: u32, most: u32, object: &[u8]) -> bool
    ensures { IsTrue result ↔ IsVector dim most object.now }
{
    if object.len() != 4 * dim as usize {
        return false;
    }
    for place in 0..dim as usize {
        if component(object, place) > most {
            return false;
        }
    }
    true
}

/// The distance of two objects of `dim` components.
fn sum_of_differences(dim: u32, a: &[u8], b: &[u8]) -> u32
    requires first { length a.now ≡ 4 * dim }
    requires second { length b.now ≡ 4 * dim }
    requires in_range { l1_dist (components a.now) (components b.now) < 2 ^ 32 }
    ensures { result ≡ l1_dist (components a.now) (components b.now) }
{
    let mut total = 0;
    for i in 0..dim as usize {
        total += component(a, i).abs_diff(component(b, i));
    }
    total
}

/// The greatest difference of two objects of `dim` components.
fn greatest_difference(dim: u32, a: &[u8], b: &[u8]) -> u32
    requires first { length a.now ≡ 4 * dim }
    requires second { length b.now ≡ 4 * dim }
    ensures { result ≡ linf_dist (components a.now) (components b.now) }
{
    let mut greatest = 0;
    for i in 0..dim as usize {
        greatest = greatest.max(component(a, i).abs_diff(component(b, i)));
    }
    greatest
}

/// Component `i` of the object, of a vector or a set: the number that its four bytes from `4 * i` on
/// are, the highest first.
pub fn component(object: &[u8], i: usize) -> u32
    requires { 4 * i + 4 ≤ length object.now }
    ensures { result ≡ slice_index (components object.now) i }
{
    let at = 4 * i;
    u32::from_be_bytes([object[at], object[at + 1], object[at + 2], object[at + 3]])
}
