//! Strings of bytes, and the number of places in which two of them differ.

ghost use Rattle.std.specs.Prelude.{◌≡◌, ◌≤◌, ◌↔◌, IsTrue, length};
ghost use Rattle.metrics_builtin.specs.declared.Space.{Space};
ghost use Rattle.metrics_builtin.specs.Space.{fits, IsValid, dist, top};
ghost use Rattle.metrics_builtin.specs.SpaceLaws.{is_metric};
ghost use Rattle.metrics_builtin.specs.Strings.{hamming_dist};

use metric_laws::Metric;

/// The metric of a space `Space::Hamming` that fits: the distance of two strings is the number of
/// places in which they differ.
#[derive(Clone, Copy, Debug)]
pub struct Hamming {
    /// How many bytes a string has, 1 to 120.
    pub len: u32,
    pub ghost in_range: { IsTrue (fits (Space.Hamming len)) },
}

impl Metric for Hamming {
    ghost admitted = { λ m. IsValid (Space.Hamming m.len) };

    ghost dist = { λ m. dist (Space.Hamming m.len) };

    ghost top = { λ m. top (Space.Hamming m.len) };

    ghost metric_laws = { λ m. is_metric (Space.Hamming m.len) m.in_range };

    /// Whether the object has as many bytes as the space's strings. It reads none of them.
    fn admits(&self, object: &[u8]) -> bool {
        object.len() == self.len as usize
    }

    /// The number of places that differ, in one pass over both objects.
    fn distance(&self, a: &[u8], b: &[u8]) -> u32 {
        count_of_differences(a, b)
    }

    /// The number of places.
    fn top(&self) -> u32 {
        self.len
    }
}

/// How many places of two objects of one length differ. There are so few places that the count is kept
/// in a byte, which lets the compiler compare many of them at once.
fn count_of_differences(a: &[u8], b: &[u8]) -> u32
    requires alike { length a.now ≡ length b.now }
    requires short { length a.now ≤ 120 }
    ensures { result ≡ hamming_dist a.now b.now }
{
    let mut count = 0u8;
    for i in 0..a.len() {
        count += u8::from(a[i] != b[i]);
    }
    u32::from(count)
}
