//! The bounds of a count, and when a revision goes to no pods at all.
#![tactic(auto)]

mod settings;
mod zero;

ghost use Rattle.std.specs.Prelude.{◌≡◌};
ghost use Rattle.kn_scaling.specs.Zero.{bounded_count};

use kn_event::Spec;
use kn_scaling::bounded_count;
pub use kn_scaling::{Standing, ZeroAnswer};
pub use zero::Zero;

/// A count of pods within the bounds: no less than min-scale, or the initial scale where that is more and so many pods were
/// never Ready (`reached` is false); else no more than max-scale, where that is not 0; and 500 in any case.
pub fn bounds(spec: &Spec, reached: bool, n: u64) -> u64
    ensures { result ≡ bounded_count spec.now reached n }
{
    bounded_count(spec, reached, n)
}
