//! How long requests waited: counted by the millisecond, so that each percentile is exact.
#![tactic(auto)]

ghost use Rattle.std.specs.Prelude.{ℕ, ◌<◌, ◌≤◌, List, length};
ghost use Rattle.kn_waits.specs.Waits.{IsLeastEnough, percentile};

mod counters;
mod waits;

pub use waits::Waits;

/// Where anybody waited, a percentile is the least of all numbers of milliseconds such that at least q of n waited no
/// longer. Nothing is computed here.
pub fn percentile_laws()
    ensures { (q n : ℕ) (ws : List ℕ) → q ≤ n → 0 < length ws → IsLeastEnough q n ws (percentile q n ws) }
{}
