//! A metric that isn't built in: strings whose places have weights.
ghost use Rattle.std.specs.Prelude.{◌≡◌, ◌<◌, ◌≤◌, ◌^◌, length, sum, None, IfSome};
ghost use Rattle.metrics_builtin.specs.Strings.{IsString};
ghost use Rattle.weighted_hamming.specs.Weighted.{AreWeights, weighted_dist};
ghost use Rattle.weighted_hamming.specs.WeightedLaws.{weighted_metric};

use metric_laws::Metric;

/// The weighted Hamming distance of strings with a byte for each weight: the sum of the weights of the places in
/// which the two differ.
///
/// The ghost fields are facts that every value carries: the laws below need them, and only `new` has to show them.
/// They take no room.
#[derive(Clone, Copy, Debug)]
pub struct WeightedHamming<'a> {
    weights: &'a [u32],
    /// The sum of the weights.
    top: u32,
    ghost are_weights: { AreWeights weights.now },
    ghost top_is_sum: { top ≡ sum weights.now },
}

impl<'a> WeightedHamming<'a> {
    /// The metric with these weights. It answers `None` if one of them is 0, which would put different strings at
    /// distance 0, or if their sum is past 4294967295. It reads each weight once and keeps the reference.
    pub fn new(weights: &'a [u32]) -> Option<WeightedHamming<'a>>
        ensures some { IfSome result (λ metric. metric.weights.now ≡ weights.now) }
        ensures none { result ≡ None → AreWeights weights.now → ⊥ }
    {
        let top = sum_of(weights)?;
        Some(WeightedHamming { weights, top })
    }
}

/// The sum of weights that are all at least 1, if it fits.
fn sum_of(weights: &[u32]) -> Option<u32>
    ensures some { IfSome result (λ total. AreWeights weights.now × (total ≡ sum weights.now)) }
    ensures none { result ≡ None → AreWeights weights.now → ⊥ }
{
    let mut total = 0u32;
    for weight in weights {
        if *weight == 0 {
            return None;
        }
        total = total.checked_add(*weight)?;
    }
    Some(total)
}

impl<'a> Metric for WeightedHamming<'a> {
    // What the trait asks for: the objects, their distance and its bound, as definitions of `specs/Weighted.antt` ..
    ghost admitted = { λ m. IsString (length m.weights.now) };

    ghost dist = { λ m. weighted_dist m.weights.now };

    ghost top = { λ m. sum m.weights.now };

    // .. and the proof of the laws: `specs/WeightedLaws.antt` has it, by recursion over the places.
    ghost metric_laws = { λ m. weighted_metric m.weights.now m.are_weights };

    /// Whether the object has a byte for each weight. It reads none of them.
    fn admits(&self, object: &[u8]) -> bool {
        object.len() == self.weights.len()
    }

    /// The sum of the weights of the places that differ, in one pass.
    fn distance(&self, a: &[u8], b: &[u8]) -> u32 {
        weight_of_differences(self.weights, a, b)
    }

    /// The sum of all weights.
    fn top(&self) -> u32 {
        self.top
    }
}

/// The sum of the weights of the places in which the two differ.
fn weight_of_differences(weights: &[u32], a: &[u8], b: &[u8]) -> u32
    requires first { length a.now ≡ length weights.now }
    requires second { length b.now ≡ length weights.now }
    requires weights { AreWeights weights.now }
    ensures { result ≡ weighted_dist weights.now a.now b.now }
{
    let mut total = 0;
    for i in 0..weights.len() {
        if a[i] != b[i] {
            total += weights[i];
        }
    }
    total
}
