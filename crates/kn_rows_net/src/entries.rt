//! What some entries say, of two short traces.
ghost use Rattle.kn_rows_net.specs.Entries.{FullWhileOneWaits, OneSeatInUse, TwoLiveOneHeld, StandsWhileOneWaits, RefusedStandsEnded, ThreeArrived, SecondAtItsPod, FirstEndedAt4, LoadOfBoth, TwoAtPodOneRuns, ReadyUntilDrained, LimitsOfTwoPods, NoSeatAndNotFull, QueuedOneWaits, OneDrainsOneStarts, TwoCreated};

/// One seat, and room for one that waits: while one runs and one waits the breaker is full. One that was refused has
/// ended, and one that has not arrived is unknown.
#[tactic(auto, unfolding(kn_trace::specs::Worked::whole_run))]
pub fn one_waits_for_a_seat()
    ensures full { FullWhileOneWaits }
    ensures seats { OneSeatInUse }
    ensures counts { TwoLiveOneHeld }
    ensures stands { StandsWhileOneWaits }
    ensures refused { RefusedStandsEnded }
{}

/// Then the first has ended, and the second runs. Their load is that of both.
#[tactic(auto, unfolding(kn_trace::specs::Worked::whole_run))]
pub fn second_runs_after_the_first()
    ensures arrived { ThreeArrived }
    ensures pod { SecondAtItsPod }
    ensures end { FirstEndedAt4 }
    ensures load { LoadOfBoth }
{}

/// A pod of limit 1 runs one of the two requests that were sent to it, so it has no free seat, and is far from full.
#[tactic(auto, unfolding(kn_trace::specs::Worked::whole_run))]
pub fn one_runs_one_queues()
    ensures at_pod { TwoAtPodOneRuns }
    ensures limits { LimitsOfTwoPods }
    ensures seats { NoSeatAndNotFull }
    ensures waits { QueuedOneWaits }
{}

/// A pod that drains is not Ready; another one is starting.
#[tactic(auto, unfolding(kn_trace::specs::Worked::whole_run))]
pub fn one_drains_one_starts()
    ensures ready { ReadyUntilDrained }
    ensures pods { OneDrainsOneStarts }
    ensures created { TwoCreated }
{}
