//! Runs whose pods are scaled.
ghost use Rattle.kn_rows_show.specs.Scaled.{Decisions, Direct, DrainingStillCosts, RemovedAndLost, WokenBesidePods, WokenByTick, WokenTwice, ZeroForDays};

/// Opens at zero and is woken, and again after three days.
#[tactic(auto, unfolding(kn_trace::specs::Worked::whole_run, crate::specs::Sums::whole_summary))]
pub fn woken_twice()
    ensures { WokenTwice }
{}

/// No pod is wanted while one is still Ready: the next arrival wakes.
#[tactic(auto, unfolding(kn_trace::specs::Worked::whole_run, crate::specs::Sums::whole_summary))]
pub fn woken_beside_pods()
    ensures { WokenBesidePods }
{}

/// A tick wakes, without an arrival.
#[tactic(auto, unfolding(kn_trace::specs::Worked::whole_run, crate::specs::Sums::whole_summary))]
pub fn woken_by_tick()
    ensures { WokenByTick }
{}

/// Never a pod; a tick without a sample is no decision.
#[tactic(auto, unfolding(kn_trace::specs::Worked::whole_run, crate::specs::Sums::whole_summary))]
pub fn zero_for_days()
    ensures { ZeroForDays }
{}

/// Pods that are lost, and one that drains and leaves.
#[tactic(auto, unfolding(kn_trace::specs::Worked::whole_run, crate::specs::Sums::whole_summary))]
pub fn removed_and_lost()
    ensures { RemovedAndLost }
{}

/// A pod that drains costs until it is removed.
#[tactic(auto, unfolding(kn_trace::specs::Worked::whole_run, crate::specs::Sums::whole_summary))]
pub fn draining_still_costs()
    ensures { DrainingStillCosts }
{}

/// Decisions in panic and out of it.
#[tactic(auto, unfolding(kn_trace::specs::Worked::whole_run, crate::specs::Sums::whole_summary))]
pub fn decisions()
    ensures { Decisions }
{}

/// Requests past the activator wait too, in the queue of their pod.
#[tactic(auto, unfolding(kn_trace::specs::Worked::whole_run, crate::specs::Sums::whole_summary))]
pub fn direct()
    ensures { Direct }
{}
