//! What an average asks for: so many pods, at so many ready ones.
ghost use Rattle.std.specs.Prelude.{◌≡◌, ◌*◌, ◌<◌, nat_lt};
ghost use Rattle.kn_scaling.specs.Demand.{count_for, max_scale_down, max_scale_up, one_or_more, with_activation, within_rates};
ghost use Rattle.kn_levers.specs.Levers.{bears_less, is_cut, is_kept, is_raised, most_down};

use kn_event::{Frac, Spec};

/// No ready pod is taken as one.
pub fn one_or_more(ready: u64) -> u64
    ensures { result ≡ one_or_more ready }
{
    ready.max(1)
}

/// The most pods that one decision may ask for with so many ready.
#[tactic(auto, unfolding(kn_scaling::specs::Demand::max_scale_up))]
pub fn max_scale_up(spec: &Spec, ready: u64) -> u128
    ensures { result ≡ max_scale_up spec.now ready }
{
    (spec.up.0 as u128 * one_or_more(ready) as u128).div_ceil(1000)
}

/// The fewest.
#[tactic(auto, unfolding(kn_scaling::specs::Demand::max_scale_down))]
pub fn max_scale_down(spec: &Spec, ready: u64) -> u128
    ensures { result ≡ max_scale_down spec.now ready }
{
    1000 * one_or_more(ready) as u128 / spec.down.0 as u128
}

/// The fewest by the least rate, 1.001.
pub(crate) fn most_down(ready: u64) -> u128
    ensures { result ≡ most_down ready }
{
    1000 * one_or_more(ready) as u128 / 1001
}

/// So many pods within the rates.
fn within_rates(spec: &Spec, ready: u64, pods: u64) -> u128
    ensures { result ≡ within_rates spec.now ready pods }
{
    max_scale_up(spec, ready).min(max_scale_down(spec, ready).max(pods as u128))
}

/// The up rate holds so many pods.
pub fn is_cut(spec: &Spec, ready: u64, pods: u64) -> bool
    ensures { result ≡ is_cut spec.now ready pods }
{
    max_scale_up(spec, ready) < max_scale_down(spec, ready).max(pods as u128)
}

/// The down rate does.
pub fn is_kept(spec: &Spec, ready: u64, pods: u64) -> bool
    ensures { result ≡ is_kept spec.now ready pods }
{
    (pods as u128) < max_scale_down(spec, ready)
}

/// The activation scale raises them.
pub fn is_raised(spec: &Spec, ready: u64, pods: u64) -> bool
    ensures { result ≡ is_raised spec.now ready pods }
{
    let within = within_rates(spec, ready, pods);
    0 < within && within < spec.activation as u128
}

/// Within the rates and at the activation scale.
#[tactic(auto, unfolding(kn_scaling::specs::Demand::count_for))]
pub fn count_for(spec: &Spec, ready: u64, pods: u64) -> u128
    ensures { result ≡ count_for spec.now ready pods }
{
    if is_raised(spec, ready, pods) {
        spec.activation as u128
    } else {
        within_rates(spec, ready, pods)
    }
}

/// So many pods at the activation scale, whatever the rates.
pub(crate) fn with_activation(spec: &Spec, pods: u64) -> u64
    ensures { result ≡ with_activation spec.now pods }
{
    if 0 < pods && pods < spec.activation {
        spec.activation
    } else {
        pods
    }
}

/// So many pods bear less than the rest of an average, which is below one request.
#[tactic(auto, using(crate::proofs::Products::few_times, crate::proofs::Products::rest_borne, crate::proofs::Products::rest_less))]
fn bears_less_rest(left: u128, rest: u128, den: u128) -> bool
    requires { rest < den }
    ensures { result ≡ nat_lt (left * den) (100 * rest) }
{
    if left < 100 {
        left * (den / 100) + left * (den % 100) / 100 < rest
    } else {
        false
    }
}

/// So many pods at the least target, 0.01, bear less than the average. It is compared by whole requests first, so that no
/// product is too great.
#[tactic(auto, using(crate::proofs::Products::average_more, crate::proofs::Products::average_rest))]
pub(crate) fn bears_less(pods: u64, average: Frac) -> bool
    ensures { result ≡ bears_less pods average }
{
    let whole = average.num / average.den;
    let rest = average.num % average.den;
    if pods as u128 / 100 < whole {
        true
    } else {
        bears_less_rest(pods as u128 - 100 * whole, rest, average.den)
    }
}
