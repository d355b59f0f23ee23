//! How many pods a pair of averages asks for, by whole fractions.
#![tactic(auto)]

ghost use Rattle.std.specs.Prelude.{◌≡◌, ◌≤◌};
ghost use Rattle.kn_scaling.specs.Average.{IsAverage};
ghost use Rattle.kn_scaling.specs.Demand.{count_for, desired_counts, is_over, max_scale_down, max_scale_up, pods_for, with_activation};

use kn_event::{Counts, Frac, Spec};

/// What the stable and the panic average ask for with so many Ready pods, 500 at most. An average has a denominator of
/// 3,600,000 at most and stands for 1,000,000 requests at most.
#[tactic(auto, unfolding(kn_scaling::specs::Demand::desired_counts))]
pub fn counts(spec: &Spec, ready: u64, stable: Frac, panic: Frac) -> Counts
    requires ready { ready ≤ 500 }
    requires stable { IsAverage stable }
    requires panic { IsAverage panic }
    ensures { result ≡ desired_counts spec.now ready stable panic }
{
    let dspc = pods_for(spec, stable);
    let dppc = pods_for(spec, panic);
    Counts {
        dspc,
        dppc,
        stable_count: count_for(spec, ready, dspc),
        panic_count: count_for(spec, ready, dppc),
        over: is_over(spec, ready, dppc),
    }
}

/// Pods that bear an average, each at the target: 100,000,000 at most, since a target is 0.01 at least.
#[tactic(auto, using(crate::proofs::Quotients::pods_most), unfolding(kn_scaling::specs::Demand::pods_for))]
fn pods_for(spec: &Spec, average: Frac) -> u64
    requires { IsAverage average }
    ensures value { result ≡ pods_for spec.now average }
    ensures most { result ≤ 100000000 }
{
    (average.num * spec.target.den).div_ceil(average.den * spec.target.num) as u64
}

/// The most pods that one decision may ask for.
#[tactic(auto, unfolding(kn_scaling::specs::Demand::max_scale_up))]
fn max_scale_up(spec: &Spec, ready: u64) -> u64
    requires { ready ≤ 500 }
    ensures { result ≡ max_scale_up spec.now ready }
{
    (spec.up.0 * ready.max(1)).div_ceil(1000)
}

/// The fewest.
#[tactic(auto, unfolding(kn_scaling::specs::Demand::max_scale_down))]
fn max_scale_down(spec: &Spec, ready: u64) -> u64
    requires { ready ≤ 500 }
    ensures { result ≡ max_scale_down spec.now ready }
{
    1000 * ready.max(1) / spec.down.0
}

/// A count above 0 is the activation scale at least.
fn with_activation(spec: &Spec, count: u64) -> u64
    ensures { result ≡ with_activation spec.now count }
{
    if 0 < count && count < spec.activation {
        spec.activation
    } else {
        count
    }
}

/// The pods asked for, within the rates and then at the activation scale.
#[tactic(auto, unfolding(kn_scaling::specs::Demand::count_for))]
fn count_for(spec: &Spec, ready: u64, pods: u64) -> u64
    requires { ready ≤ 500 }
    ensures { result ≡ count_for spec.now ready pods }
{
    let within_rates = max_scale_up(spec, ready).min(max_scale_down(spec, ready).max(pods));
    with_activation(spec, within_rates)
}

/// Whether the pods asked for, over the Ready ones, are the panic threshold or more.
#[tactic(auto, unfolding(kn_scaling::specs::Demand::is_over))]
fn is_over(spec: &Spec, ready: u64, pods: u64) -> bool
    requires ready { ready ≤ 500 }
    requires pods { pods ≤ 100000000 }
    ensures { result ≡ is_over spec.now ready pods }
{
    spec.panic_threshold.0 * ready.max(1) <= pods * 100_000
}
