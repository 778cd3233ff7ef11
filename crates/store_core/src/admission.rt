//! Which objects a space has.
ghost use Rattle.std.specs.Prelude.{◌↔◌, IsTrue};
ghost use Rattle.metrics_builtin.specs.Space.{fits, IsValid};

use metric_laws::Metric;
use metrics_builtin::{Hamming, L1, LInf, SetDiff, Space};

/// Whether the space has the object. It reads each byte at most once.
pub(crate) fn admits(space: &Space, object: &[u8]) -> bool
    requires { IsTrue (fits space.now) }
    ensures { IsTrue result ↔ IsValid space.now object.now }
{
    match *space {
        Space::L1 { dim, most } => L1 { dim, most }.admits(object),
        Space::LInf { dim, most } => LInf { dim, most }.admits(object),
        Space::Hamming { len } => Hamming { len }.admits(object),
        Space::Sets { universe, most } => SetDiff { universe, most }.admits(object),
    }
}
