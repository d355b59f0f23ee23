//! What a Decider reads of its specification, and the averages that are constants.
ghost use Rattle.std.specs.Prelude.{◌≡◌, ◌≤◌, nat_le, unwrap_or, IfSome};
ghost use Rattle.kn_scaling.specs.Average.{IsAverage, value_of};
ghost use Rattle.kn_scaling.specs.Burst.{excess_burst};
ghost use Rattle.kn_scaling.specs.Decide.{no_load, one_request, stable_window_ms};

use kn_burst::excess;
use kn_event::{Frac, Metric, Spec};

/// What a second counts for, in thousandths: its load, or 1,000 for each request that came in it.
pub(crate) fn value_of(spec: &Spec, load: u64, arrived: u64) -> u64
    requires load { load ≤ 20000000 }
    requires arrived { arrived ≤ 1000000 }
    ensures value { result ≡ value_of spec.now.metric load arrived }
    ensures most { result ≤ 1000000000 }
{
    match spec.metric {
        Metric::Concurrency => load,
        Metric::Rps => 1000 * arrived,
    }
}

/// Whether so many pods are the initial scale.
pub(crate) fn is_reached(spec: &Spec, ready: u64) -> bool
    ensures { result ≡ nat_le spec.now.initial ready }
{
    spec.initial <= ready
}

/// The stable window in milliseconds.
pub(crate) fn stable_window_ms(spec: &Spec) -> u64
    ensures { result ≡ stable_window_ms spec.now }
{
    1000 * spec.stable_s
}

/// The excess burst capacity.
pub(crate) fn excess_burst(spec: &Spec, ready: u64, panic: Frac) -> i64
    requires ready { ready ≤ 500 }
    requires panic { IsAverage panic }
    ensures { result ≡ excess_burst ready spec.now.total spec.now.burst panic }
{
    excess(ready, spec.total, spec.burst, panic)
}

/// What an arrival that wakes a revision counts as.
#[tactic(auto, using(crate::proofs::Fractions::one_request_by))]
pub(crate) fn one_request() -> Frac
    ensures value { result ≡ one_request }
    ensures average { IsAverage result }
{
    Frac { num: 1, den: 1 }
}

/// The average over the panic window; nothing, where no sample lies in it.
#[tactic(auto, using(crate::proofs::Fractions::no_load_by))]
pub(crate) fn average_or_none(average: Option<Frac>) -> Frac
    requires { IfSome average IsAverage }
    ensures value { result ≡ unwrap_or average no_load }
    ensures average { IsAverage result }
{
    match average {
        Some(average) => average,
        None => Frac { num: 0, den: 1 },
    }
}
