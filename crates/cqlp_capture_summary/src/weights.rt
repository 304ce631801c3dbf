//! Weights of statements: the most nanoseconds that each may have taken.

ghost use Rattle.std.specs.Prelude.{◌≡◌, ◌<◌, IfSome, length, slice_index_or, slice_set};
ghost use Rattle.cqlp_capture_summary.specs.Adding.{raised};
ghost use Rattle.cqlp_capture_summary.specs.Summaries.{lightest};
ghost use Rattle.cqlp_capture_summary.specs.Tallies.{counted};

/// The first place of the least weight, if there is one.
pub(crate) fn lightest(weights: &[u64]) -> Option<usize>
    ensures place { result ≡ lightest weights.now }
    ensures within { IfSome result (λ at. at < length weights.now) }
{
    let mut least = *weights.first()?;
    let mut best = 0;
    for (place, weight) in weights.iter().enumerate() {
        if *weight < least {
            least = *weight;
            best = place;
        }
    }
    Some(best)
}

/// Adds nanoseconds to the weight at a place.
pub(crate) fn add_weight_at(weights: &mut [u64], at: usize, took: u64)
    ensures { weights.new ≡ slice_set weights.old at (counted (slice_index_or weights.old at 0) took) }
{
    if at < weights.len() {
        weights[at] = weights[at].saturating_add(took);
    }
}

/// Has the weight at a place be at least this before, and adds nanoseconds to it.
pub(crate) fn raise_weight_at(weights: &mut [u64], at: usize, before: u64, most: u64)
    ensures { weights.new ≡ slice_set weights.old at (raised before most (slice_index_or weights.old at 0)) }
{
    if at < weights.len() {
        weights[at] = weights[at].max(before).saturating_add(most);
    }
}
