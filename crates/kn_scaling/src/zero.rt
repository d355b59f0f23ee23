//! The bounds of a count, and what the scale-to-zero rule reads and answers.
ghost use Rattle.std.specs.Prelude.{◌≡◌};
ghost use Rattle.kn_scaling.specs.Zero.{bounded_count, lower_bound, not_above_max};

use kn_event::{Mode, Phase, Spec};

/// Where a revision stands before a decision. 'Since' is the time of the last entry of it, or the start, in milliseconds.
#[derive(Clone, Copy)]
pub struct Standing {
    pub phase: Phase,
    pub phase_since: u64,
    pub mode: Mode,
    pub mode_since: u64,
    /// Pods wanted so far.
    pub want: u64,
}

/// What the scale-to-zero rule answers.
#[derive(Clone, Copy)]
pub struct ZeroAnswer {
    /// Pods wanted from now on.
    pub want: u64,
    /// Whether pods are created or drained for it.
    pub applied: bool,
    /// The phase after the decision.
    pub phase: Phase,
}

/// The most pods of a revision.
const PODS_MOST: u64 = 500;

/// Min-scale, raised to the initial scale as long as so many pods were never Ready.
#[tactic(auto, unfolding(crate::specs::Zero::lower_bound))]
fn lower_bound(spec: &Spec, reached: bool) -> u64
    ensures { result ≡ lower_bound spec.now reached }
{
    if reached {
        spec.min
    } else {
        spec.min.max(spec.initial)
    }
}

/// At most max-scale, where 0 is none.
fn not_above_max(spec: &Spec, count: u64) -> u64
    ensures { result ≡ not_above_max spec.now count }
{
    if spec.max == 0 {
        count
    } else {
        spec.max.min(count)
    }
}

/// A count of pods within the bounds: the lower one wins over max-scale, and there are 500 pods at most. `reached` says that
/// as many pods as the initial scale were once Ready.
#[tactic(auto, unfolding(crate::specs::Zero::bounded_count))]
pub fn bounded_count(spec: &Spec, reached: bool, count: u64) -> u64
    ensures { result ≡ bounded_count spec.now reached count }
{
    let least = lower_bound(spec, reached);
    let bounded = if count < least {
        least
    } else {
        not_above_max(spec, count)
    };
    PODS_MOST.min(bounded)
}
