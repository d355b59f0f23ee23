//! Pods that drain: which, when they go, and what they leave as it was.
ghost use Rattle.kn_rows_net.specs.Draining.{PlaceAfterDrainReport, PlaceAfterDrainLastLine, PlaceAfterDrainTold, PlaceAfterDrainStand, PlaceAcrossDrainReport, PlaceAcrossDrainLastLine, PlaceAcrossDrainTold, PlaceAcrossDrainStand, WordsAfterDirectsReport, WordsAfterDirectsLastLine, WordsAfterDirectsTold, WordsAfterDirectsStand, DrainStartingFirstReport, DrainStartingFirstLastLine, DrainStartingFirstTold, DrainStartingFirstStand, CreateBesideDrainingReport, CreateBesideDrainingLastLine, CreateBesideDrainingTold, CreateBesideDrainingStand, DrainingRunsQueueReport, DrainingRunsQueueLastLine, DrainingRunsQueueTold, DrainingRunsQueueStand, QueueExpiresWhileDrainingTold, QueueExpiresWhileDrainingStand, TurnsAcrossDrainReport, TurnsAcrossDrainLastLine, TurnsAcrossDrainTold, TurnsAcrossDrainStand};

/// A place past the Ready pods is 0, and no rest of a division. Requests that go past the activator do not move it;
/// the search goes on past a full pod. A decision's mode comes before its drains.
#[tactic(auto, unfolding(kn_trace::specs::Worked::whole_run))]
pub fn place_after_drain()
    ensures report { PlaceAfterDrainReport }
    ensures last_line { PlaceAfterDrainLastLine }
    ensures told { PlaceAfterDrainTold }
    ensures stand { PlaceAfterDrainStand }
{}

/// A drain does not reset the place of the round robin.
#[tactic(auto, unfolding(kn_trace::specs::Worked::whole_run))]
pub fn place_across_drain()
    ensures report { PlaceAcrossDrainReport }
    ensures last_line { PlaceAcrossDrainLastLine }
    ensures told { PlaceAcrossDrainTold }
    ensures stand { PlaceAcrossDrainStand }
{}

/// Assignments alone draw words: neither an arrival nor a request that goes past the activator does.
#[tactic(auto, unfolding(kn_trace::specs::Worked::whole_run))]
pub fn words_after_directs()
    ensures report { WordsAfterDirectsReport }
    ensures last_line { WordsAfterDirectsLastLine }
    ensures told { WordsAfterDirectsTold }
    ensures stand { WordsAfterDirectsStand }
{}

/// Starting pods drain first, the greatest number first, then Ready ones, several at once; they are removed by
/// number. A draining pod takes a limit, refuses `ready`, is in use and gives no capacity. Runs come first, then
/// assignments, then removals. A removed pod is no pod.
#[tactic(auto, unfolding(kn_trace::specs::Worked::whole_run))]
pub fn drain_starting_first()
    ensures report { DrainStartingFirstReport }
    ensures last_line { DrainStartingFirstLastLine }
    ensures told { DrainStartingFirstTold }
    ensures stand { DrainStartingFirstStand }
{}

/// Wanted pods are compared with the live ones that do not drain; a new one has the revision's limit, also where a
/// pod's limit was changed. The greatest Ready pod drains although it is busy; a starting pod gives no capacity.
#[tactic(auto, unfolding(kn_trace::specs::Worked::whole_run))]
pub fn create_beside_draining()
    ensures report { CreateBesideDrainingReport }
    ensures last_line { CreateBesideDrainingLastLine }
    ensures told { CreateBesideDrainingTold }
    ensures stand { CreateBesideDrainingStand }
{}

/// A draining pod runs its queue, and a request that is queued there can be given up. Until the initial scale was
/// reached it is the least.
#[tactic(auto, unfolding(kn_trace::specs::Worked::whole_run))]
pub fn draining_runs_queue()
    ensures report { DrainingRunsQueueReport }
    ensures last_line { DrainingRunsQueueLastLine }
    ensures told { DrainingRunsQueueTold }
    ensures stand { DrainingRunsQueueStand }
{}

/// A request that is still queued at a draining pod when its time is over expires.
#[tactic(auto, unfolding(kn_trace::specs::Worked::whole_run))]
pub fn queue_expires_while_draining()
    ensures told { QueueExpiresWhileDrainingTold }
    ensures stand { QueueExpiresWhileDrainingStand }
{}

/// A pod that gets ready does not reset the turn, nor does one that drains.
#[tactic(auto, unfolding(kn_trace::specs::Worked::whole_run))]
pub fn turns_across_drain()
    ensures report { TurnsAcrossDrainReport }
    ensures last_line { TurnsAcrossDrainLastLine }
    ensures told { TurnsAcrossDrainTold }
    ensures stand { TurnsAcrossDrainStand }
{}
