ghost use Rattle.metric_laws.specs.Calls.{RulerContinues};
ghost use Rattle.std.specs.Prelude.{◌≡◌, ℕ, ◌+◌, ◌^◌, ◌<◌, ◌≤◌, nat_eq, List, length, replicate, slice_index, count_by, All, EachIndex, IfOk, OnOk};
ghost use Rattle.std.specs.List.{IsDistinct};
ghost use Rattle.metric_laws.specs.Log.{LogExtends, each_with};
ghost use Rattle.metrics_builtin.specs.Vectors.{greatest};
ghost use Rattle.spb_defs.specs.Choice.{sample_at, first_place, chosen_places, choice_evals};
ghost use Rattle.spb_defs.specs.Farthest.{IsFarthestFirst};
ghost use Rattle.pivot_choice.specs.Worths.{is_unchosen, updated_worth, unchosen_among_first, choice_visits};

use metric_laws::Ruler;
use pivot_map::Ids;
use spb_defs::pivots_are_farthest_first;
use spb_edge::{Bytes, Memory};
use std::alloc::Global;

/// The places in `sample` of `n` pivots, in the order of the choice. The first is the first object; each
/// further one is the object, not chosen yet, whose distances to the chosen ones have the greatest sum, and
/// the earliest of several such. So the places are below the number of samples, and no two are equal.
///
/// It needs at most 2^31 admitted samples and `n` of at most as many; if `n` is 0 there may be none. It measures each
/// chosen object but the last with all that aren't chosen yet, once, so it takes time in proportion to `n` times the
/// samples, and memory for one number for each sample and one for each place. Its only error is that memory ran out;
/// the ruler may have measured by then.
pub fn choose<R: Ruler>(
    alloc: Global,
    ruler: &mut R,
    sample: &[Bytes],
    n: usize,
) -> Result<Ids, Memory>
    requires enough { n ≤ length sample.now }
    requires few { length sample.now ≤ 2 ^ 31 }
    requires objects { All (R.admitted (R.kind ruler.old)) sample.now }
    requires room { R.count ruler.old < 2 ^ 63 }
    ensures places { IfOk result (λ places. places ≡ chosen_places (R.dist (R.kind ruler.old)) sample.now n) }
    ensures within { IfOk result (λ places. All (λ place. place < length sample.now) places) }
    ensures length { IfOk result (λ places. length places ≡ n) }
    ensures distinct { IfOk result (λ places. IsDistinct nat_eq places) }
    ensures farthest { IfOk result (λ places. IsFarthestFirst (R.dist (R.kind ruler.old)) sample.now places) }
    ensures count { OnOk result (R.count ruler.new ≡ R.count ruler.old + choice_evals (length sample.now) n) }
    ensures ruler { RulerContinues R.kind R.count ruler.old ruler.new }
    ensures log { OnOk result (LogExtends (R.log ruler.old) (R.log ruler.new) (choice_visits (R.dist (R.kind ruler.old)) sample.now n)) }
{
    if n == 0 {
        return Ids::of(alloc, &[]);
    }
    // The law on the definition, for `farthest`.
    pivots_are_farthest_first();
    let mut worths = vec![in alloc; 1; sample.len()]?;
    choose_by_worth(alloc, ruler, sample, n, worths.as_mut_slice())
}

/// The same for at least one place, over a number for each sample, at first 1: what a place is worth, which
/// is 0 once it is chosen, and else more by one than the sum of its distances to the chosen ones.
fn choose_by_worth<R: Ruler>(
    alloc: Global,
    ruler: &mut R,
    sample: &[Bytes],
    n: usize,
    worths: &mut [u64],
) -> Result<Ids, Memory>
    requires some { 1 ≤ n }
    requires enough { n ≤ length sample.now }
    requires few { length sample.now ≤ 2 ^ 31 }
    requires objects { All (R.admitted (R.kind ruler.old)) sample.now }
    requires room { R.count ruler.old < 2 ^ 63 }
    requires worths { worths.old ≡ replicate (length sample.now) 1 }
    ensures places { IfOk result (λ places. places ≡ chosen_places (R.dist (R.kind ruler.old)) sample.now n) }
    ensures distinct { IfOk result (λ places. IsDistinct nat_eq places) }
    ensures count { OnOk result (R.count ruler.new ≡ R.count ruler.old + choice_evals (length sample.now) n) }
    ensures ruler { RulerContinues R.kind R.count ruler.old ruler.new }
    ensures log { OnOk result (LogExtends (R.log ruler.old) (R.log ruler.new) (choice_visits (R.dist (R.kind ruler.old)) sample.now n)) }
{
    let mut chosen = best_place(worths);
    let mut places = Ids::of(alloc, &[chosen as u32])?;
    for _ in 1..n {
        worths[chosen] = 0;
        add_distances(ruler, sample, chosen, worths);
        chosen = best_place(worths);
        places.append(&[chosen as u32])?;
    }
    Ok(places)
}

/// The first of the places that are worth most.
fn best_place(worths: &[u64]) -> usize
    requires some { 0 < length worths.now }
    ensures first { result ≡ first_place (greatest worths.now) worths.now }
    ensures within { result < length worths.now }
{
    let mut best = 0;
    let mut most = 0;
    for (place, &worth) in worths.iter().enumerate() {
        if worth > most {
            best = place;
            most = worth;
        }
    }
    best
}

/// Adds its distance from the chosen sample to each place that is worth something, by ascending place. It measures one
/// distance for each of these.
fn add_distances<R: Ruler>(ruler: &mut R, sample: &[Bytes], chosen: usize, worths: &mut [u64])
    requires within { chosen < length sample.now }
    requires lengths { length worths.old ≡ length sample.now }
    requires low { EachIndex worths.old (λ place. slice_index worths.old place < 2 ^ 63) }
    requires objects { All (R.admitted (R.kind ruler.old)) sample.now }
    requires room { R.count ruler.old + length sample.now < 2 ^ 64 }
    ensures length { length worths.new ≡ length worths.old }
    ensures worths { EachIndex worths.new
        (λ place. slice_index worths.new place ≡ updated_worth (R.dist (R.kind ruler.old)) sample.now chosen place (slice_index worths.old place)) }
    ensures rise { EachIndex worths.new (λ place. slice_index worths.new place ≤ slice_index worths.old place + 4294967295) }
    ensures count { R.count ruler.new ≡ R.count ruler.old + count_by is_unchosen worths.old }
    ensures log { LogExtends (R.log ruler.old) (R.log ruler.new)
        (each_with (sample_at sample.now chosen) (unchosen_among_first worths.old sample.now (length sample.now))) }
    ensures kind { R.kind ruler.new ≡ R.kind ruler.old }
{
    let from = sample[chosen].as_slice();
    for (place, object) in sample.iter().enumerate() {
        if worths[place] == 0 {
            continue;
        }
        worths[place] += u64::from(ruler.measure(from, object.as_slice()));
    }
}
