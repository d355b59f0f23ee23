//! Revisions that scale by requests per second.
ghost use Rattle.kn_rows_net.specs.Counts.{RpsCountsTakenInReport, RpsCountsTakenInLastLine, RpsCountsTakenInTold, RpsCountsTakenInStand, RpsPastTheActivatorReport, RpsPastTheActivatorLastLine, RpsPastTheActivatorTold, RpsPastTheActivatorStand, RpsWakesReport, RpsWakesLastLine, RpsWakesTold, RpsWakesStand};

/// The requests count that are taken in in a second, also those that ended at once, and no refused ones. A second
/// with a count alone is a sample, and so is one with a load alone. The target is by the annotations, not bounded by
/// the containerConcurrency; an initial scale of 1 is a bound.
#[tactic(auto, unfolding(kn_trace::specs::Worked::whole_run))]
pub fn rps_counts_taken_in()
    ensures report { RpsCountsTakenInReport }
    ensures last_line { RpsCountsTakenInLastLine }
    ensures told { RpsCountsTakenInTold }
    ensures stand { RpsCountsTakenInStand }
{}

/// Requests that go past the activator count. A second with a Ready pod alone is a sample. The configured total, at
/// 70 per cent whatever the configured percentage of concurrency; the excess is by that total.
#[tactic(auto, unfolding(kn_trace::specs::Worked::whole_run))]
pub fn rps_past_the_activator()
    ensures report { RpsPastTheActivatorReport }
    ensures last_line { RpsPastTheActivatorLastLine }
    ensures told { RpsPastTheActivatorTold }
    ensures stand { RpsPastTheActivatorStand }
{}

/// A wake takes one request for both averages, whatever the count.
#[tactic(auto, unfolding(kn_trace::specs::Worked::whole_run))]
pub fn rps_wakes()
    ensures report { RpsWakesReport }
    ensures last_line { RpsWakesLastLine }
    ensures told { RpsWakesTold }
    ensures stand { RpsWakesStand }
{}
