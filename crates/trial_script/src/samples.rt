//! The samples of a trial.
ghost use Rattle.std.specs.Prelude.{◌≡◌, length, All, IfOk};
ghost use Rattle.metrics_builtin.specs.Space.{IsValid};
ghost use Rattle.trial_script.specs.Script.{trial_space, trial_samples};

use crate::TRIAL_SAMPLES;
use crate::draws::Draws;
use spb_edge::{Bytes, Memory};
use std::alloc::Global;

/// The samples of the trial with this seed, in their order: 16 objects of the space.
///
/// It takes memory for the objects alone.
///
/// # Errors
///
/// `Memory` if memory runs out.
pub fn trial_samples(alloc: Global, seed: u64) -> Result<Vec<Bytes>, Memory>
    ensures samples { IfOk result (λ samples. samples.items ≡ trial_samples seed) }
    ensures count { IfOk result (λ samples. length samples.items ≡ 16) }
    ensures valid { IfOk result (λ samples. All (IsValid trial_space) samples.items) }
{
    let mut draws = Draws { state: seed };
    let mut samples = Vec::new(alloc);
    for _ in 0..TRIAL_SAMPLES {
        samples.push(draws.object(alloc)?)?;
    }
    Ok(samples)
}
