//! The pivots themselves.
ghost use Rattle.std.specs.Prelude.{◌≡◌, ◌<◌, ◌≤◌, ◌^◌, length, map, min, All, IfOk};
ghost use Rattle.metrics_builtin.specs.declared.Space.{Space};
ghost use Rattle.metrics_builtin.specs.Space.{IsValid};
ghost use Rattle.spb_defs.specs.Choice.{sample_at, chosen_samples, choice_evals};

use crate::choice::choose;
use metric_laws::{Counted, Metric};
use spb_edge::{Bytes, Memory};
use std::alloc::Global;

/// Pivots that were chosen from samples.
#[derive(Debug, Drop)]
pub struct Choice {
    /// The pivots, in the order of the choice.
    pub pivots: Vec<Bytes>,
    /// How many distances were measured for the choice.
    pub evals: u64,
}

/// Copies of the samples that are chosen as pivots: as many as are wanted, or all if there are fewer. It measures as
/// [`choose`] does, and takes memory for the choice and for the copies. Its only error is that memory ran out.
pub fn choose_objects<M: Metric>(
    alloc: Global,
    metric: &M,
    samples: &[Bytes],
    wanted: usize,
) -> Result<Choice, Memory>
    requires few { length samples.now ≤ 2 ^ 31 }
    requires objects { All (M.admitted metric.now) samples.now }
    ensures pivots { IfOk result (λ choice. choice.pivots.items ≡ chosen_samples (M.dist metric.now) samples.now (min wanted (length samples.now))) }
    ensures length { IfOk result (λ choice. length choice.pivots.items ≡ min wanted (length samples.now)) }
    ensures evals { IfOk result (λ choice. choice.evals ≡ choice_evals (length samples.now) (min wanted (length samples.now))) }
    ensures valid { (space : Space) → All (IsValid space) samples.now → IfOk result (λ choice. All (IsValid space) choice.pivots.items) }
{
    let many = samples.len().min(wanted);
    let mut ruler = Counted::new(*metric);
    let places = choose(alloc, &mut ruler, samples, many)?;
    let pivots = objects_at(alloc, samples, places.as_slice())?;
    Ok(Choice {
        pivots,
        evals: ruler.count(),
    })
}

/// Copies of the objects at the places, in their order.
fn objects_at(alloc: Global, samples: &[Bytes], places: &[u32]) -> Result<Vec<Bytes>, Memory>
    requires { All (λ place. place < length samples.now) places.now }
    ensures { IfOk result (λ objects. objects.items ≡ map (sample_at samples.now) places.now) }
{
    let mut objects = Vec::new(alloc);
    for place in places {
        objects.push(Bytes::of(alloc, samples[*place as usize].as_slice())?)?;
    }
    Ok(objects)
}
