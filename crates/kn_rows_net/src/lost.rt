//! Pods that are lost, with the requests at them.
ghost use Rattle.kn_rows_net.specs.Lost.{LostPodReport, LostPodLastLine, LostBeforeSettlingReport, LostBeforeSettlingLastLine, LostBeforeSettlingTold, LostBeforeSettlingStand, LostWhileServingReport, LostWhileServingLastLine, LostWhileServingTold, LostWhileServingStand, LostAndCreatedAgainReport, LostAndCreatedAgainLastLine, LostAndCreatedAgainTold, LostAndCreatedAgainStand, LostWhileDrainingReport, LostWhileDrainingLastLine, LostWhileDrainingTold, LostWhileDrainingStand};

/// A lost pod takes its request with it. The held one stays, the lost one does not run any more, and the pod is no
/// pod.
#[tactic(auto, unfolding(kn_trace::specs::Worked::whole_run))]
pub fn lost_pod()
    ensures { LostPodReport }
{}

/// Who waited too long expires, then the requests at the pod are lost, by number, then the pod; then settling, which
/// may assign a held one. Held ones stay; neither the seats in use nor the breaker count the lost ones. A lost and a
/// missing pod are no pods.
#[tactic(auto, unfolding(kn_trace::specs::Worked::whole_run))]
pub fn lost_before_settling()
    ensures report { LostBeforeSettlingReport }
    ensures last_line { LostBeforeSettlingLastLine }
    ensures told { LostBeforeSettlingTold }
    ensures stand { LostBeforeSettlingStand }
{}

/// Queued requests are lost too, by number and not as they came; a starting pod can be lost. Phase and mode stay.
/// Without Ready pods serve mode admits, and wakes nothing; the load ends. The next decision without a Ready pod is
/// activating, in proxy mode, and creates pods.
#[tactic(auto, unfolding(kn_trace::specs::Worked::whole_run))]
pub fn lost_while_serving()
    ensures report { LostWhileServingReport }
    ensures last_line { LostWhileServingLastLine }
    ensures told { LostWhileServingTold }
    ensures stand { LostWhileServingStand }
{}

/// A lost pod is not Ready at the end of its second, does not stand, and keeps its number. The initial scale is
/// reached by so many pods at one time, which may lie between two decisions.
#[tactic(auto, unfolding(kn_trace::specs::Worked::whole_run))]
pub fn lost_and_created_again()
    ensures report { LostAndCreatedAgainReport }
    ensures last_line { LostAndCreatedAgainLastLine }
    ensures told { LostAndCreatedAgainTold }
    ensures stand { LostAndCreatedAgainStand }
{}

/// A draining pod can be lost, and is not removed after that.
#[tactic(auto, unfolding(kn_trace::specs::Worked::whole_run))]
pub fn lost_while_draining()
    ensures report { LostWhileDrainingReport }
    ensures last_line { LostWhileDrainingLastLine }
    ensures told { LostWhileDrainingTold }
    ensures stand { LostWhileDrainingStand }
{}
