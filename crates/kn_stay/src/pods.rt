//! How many pods a setup names.
ghost use Rattle.std.specs.Prelude.{◌≡◌};
ghost use Rattle.kn_stay.specs.Pods.{named_pods};

use kn_event::{Kind, Spec};

/// The pods that a revision opens with, or its max-scale where that is more.
pub fn named_pods(spec: &Spec) -> u64
    ensures { result ≡ named_pods spec.now }
{
    let first = match spec.kind {
        Kind::Fixed(pods) => pods,
        Kind::Kpa => spec.initial.max(spec.min),
    };
    first.max(spec.max)
}
