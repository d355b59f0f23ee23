//! Phases, waking, averages, panic, delay and bounds of scaled revisions.
ghost use Rattle.kn_rows_net.specs.Scaling.{StartTimesReport, StartTimesLastLine, StartTimesTold, StartTimesStand, ServeToZeroReport, ServeToZeroLastLine, ServeToZeroTold, ServeToZeroStand, ActiveTwiceReport, ActiveTwiceLastLine, ActiveTwiceTold, ActiveTwiceStand, WakeAtZeroReport, WakeAtZeroLastLine, WakeAtZeroTold, WakeAtZeroStand, ActivatingKeepsScaleReport, ActivatingKeepsScaleLastLine, ActivatingKeepsScaleTold, ActivatingKeepsScaleStand, WakeCountsInPanicReport, WakeCountsInPanicLastLine, WakeCountsInPanicTold, WakeCountsInPanicStand, PanicStartsAnewReport, PanicStartsAnewLastLine, PanicStartsAnewTold, PanicStartsAnewStand, AveragesOverGapsReport, AveragesOverGapsLastLine, AveragesOverGapsTold, AveragesOverGapsStand, DelayOfTwoReport, DelayOfTwoLastLine, DelayOfTwoTold, DelayOfTwoStand, MinAboveInitialReport, MinAboveInitialLastLine, MinAboveInitialTold, MinAboveInitialStand, InitialUntilReachedReport, InitialUntilReachedLastLine, InitialUntilReachedTold, InitialUntilReachedStand};

/// An opening at a start that is not 0. Without a mode entry proxy mode counts from the start; the grace period
/// counts from it to the millisecond, and no request renews the phase or the mode. From two pods straight to none.
#[tactic(auto, unfolding(kn_trace::specs::Worked::whole_run))]
pub fn start_times()
    ensures report { StartTimesReport }
    ensures last_line { StartTimesLastLine }
    ensures told { StartTimesTold }
    ensures stand { StartTimesStand }
{}

/// Panic lasts exactly one stable window. A decision's phase comes before its mode. The last pod is kept for the
/// retention period; with no pod wanted Starting and Ready ones drain.
#[tactic(auto, unfolding(kn_trace::specs::Worked::whole_run))]
pub fn serve_to_zero()
    ensures report { ServeToZeroReport }
    ensures last_line { ServeToZeroLastLine }
    ensures told { ServeToZeroTold }
    ensures stand { ServeToZeroStand }
{}

/// Phase and mode count from their last entry, to the millisecond. An arrival wakes the revision although a pod is
/// free.
#[tactic(auto, unfolding(kn_trace::specs::Worked::whole_run))]
pub fn active_twice()
    ensures report { ActiveTwiceReport }
    ensures last_line { ActiveTwiceLastLine }
    ensures told { ActiveTwiceTold }
    ensures stand { ActiveTwiceStand }
{}

/// A pod that gets ready at the first moment of a second is not Ready at the end of the one before. The revision
/// scales down with a running request. A refused arrival wakes nothing; a later one does although others are held:
/// one request counts for both averages, not those of the window, and the arrival is told where it stands.
#[tactic(auto, unfolding(kn_trace::specs::Worked::whole_run))]
pub fn wake_at_zero()
    ensures report { WakeAtZeroReport }
    ensures last_line { WakeAtZeroLastLine }
    ensures told { WakeAtZeroTold }
    ensures stand { WakeAtZeroStand }
{}

/// The grace and the retention period both count, by the phase. The activation scale raises counts above 0 alone.
/// While activating the last wanted scale stays and is not applied; an empty panic window is 0/1; no second wake.
#[tactic(auto, unfolding(kn_trace::specs::Worked::whole_run))]
pub fn activating_keeps_scale()
    ensures report { ActivatingKeepsScaleReport }
    ensures last_line { ActivatingKeepsScaleLastLine }
    ensures told { ActivatingKeepsScaleTold }
    ensures stand { ActivatingKeepsScaleStand }
{}

/// A wake is a decision for panic; a tick without data is none and ends no run. Activating is proxy mode, with an
/// excess of 0. The target is 0.01 at least, and the annotation gives the total.
#[tactic(auto, unfolding(kn_trace::specs::Worked::whole_run))]
pub fn wake_counts_in_panic()
    ensures report { WakeCountsInPanicReport }
    ensures last_line { WakeCountsInPanicLastLine }
    ensures told { WakeCountsInPanicTold }
    ensures stand { WakeCountsInPanicStand }
{}

/// The greatest count of a panic does not look at decisions before it.
#[tactic(auto, unfolding(kn_trace::specs::Worked::whole_run))]
pub fn panic_starts_anew()
    ensures report { PanicStartsAnewReport }
    ensures last_line { PanicStartsAnewLastLine }
    ensures told { PanicStartsAnewTold }
    ensures stand { PanicStartsAnewStand }
{}

/// Seconds without load and without Ready pods are no samples but count in the divisor; a pause of just a window
/// begins anew. An expiry and a cancel end their load; who waited too long expires at a pass and at a tick. The total
/// is at most the containerConcurrency.
#[tactic(auto, unfolding(kn_trace::specs::Worked::whole_run))]
pub fn averages_over_gaps()
    ensures report { AveragesOverGapsReport }
    ensures last_line { AveragesOverGapsLastLine }
    ensures told { AveragesOverGapsTold }
    ensures stand { AveragesOverGapsStand }
{}

/// The delay keeps the greatest undelayed count, by whole seconds. Unlimited burst capacity; the annotation's target
/// above the containerConcurrency.
#[tactic(auto, unfolding(kn_trace::specs::Worked::whole_run))]
pub fn delay_of_two()
    ensures report { DelayOfTwoReport }
    ensures last_line { DelayOfTwoLastLine }
    ensures told { DelayOfTwoTold }
    ensures stand { DelayOfTwoStand }
{}

/// The opening scale is the larger of the initial scale and min-scale, so no arrival wakes. The phase comes before
/// the assignment.
#[tactic(auto, unfolding(kn_trace::specs::Worked::whole_run))]
pub fn min_above_initial()
    ensures report { MinAboveInitialReport }
    ensures last_line { MinAboveInitialLastLine }
    ensures told { MinAboveInitialTold }
    ensures stand { MinAboveInitialStand }
{}

/// Until it was reached the initial scale rules, above max-scale too, and over a count between them. A
/// containerConcurrency of 3 takes the first pod.
#[tactic(auto, unfolding(kn_trace::specs::Worked::whole_run))]
pub fn initial_until_reached()
    ensures report { InitialUntilReachedReport }
    ensures last_line { InitialUntilReachedLastLine }
    ensures told { InitialUntilReachedTold }
    ensures stand { InitialUntilReachedStand }
{}
