//! Worked runs: each contract is computed by the checker, from the definitions alone.
ghost use Rattle.kn_trace.specs.Worked.{FirstWords, FirstWordsOfZero, EmptyJournal, OneSeatOneWaits, FinishTwice, CancelThenFinish, LimitCutWhileBusy, ExpiryBeforeFinish, RoundRobinPodComesLate, PodQueueFull, HeldUntilReady, QueuedUntilFree, OverloadComesFirst, OneLessIsServed, ScaleDownWhileBusy, ScaleToZeroAfterGrace, ScaleFromZero, ScaleFromZeroMax1, VeryLongPause, DrainingPodRunsItsQueue, WakeDecisionDrains, InitialScaleAboveMax, WakesInProxyMode, GraceCountsFromTheMode, ActivatingKeepsItsScale, ReadyWithinTheSecond, LoadWithoutAReadyPod, RefusedTurnsCount, ActivationScale, NoScaleToZero, DelayKeepsPods};

/// No pod and no event.
#[tactic(auto, unfolding(crate::specs::Worked::whole_run))]
pub fn empty_journal()
    ensures { EmptyJournal }
{}

/// One seat: the second request waits for it, the third is refused.
#[tactic(auto, unfolding(crate::specs::Worked::whole_run))]
pub fn one_seat_one_waits()
    ensures { OneSeatOneWaits }
{}

/// A request that has ended is not running.
#[tactic(auto, unfolding(crate::specs::Worked::whole_run))]
pub fn finish_twice()
    ensures { FinishTwice }
{}

/// A held request is given up, and cannot finish then.
#[tactic(auto, unfolding(crate::specs::Worked::whole_run))]
pub fn cancel_then_finish()
    ensures { CancelThenFinish }
{}

/// A reduced limit stops nobody, and the next request waits until it leaves room.
#[tactic(auto, unfolding(crate::specs::Worked::whole_run))]
pub fn limit_cut_while_busy()
    ensures { LimitCutWhileBusy }
{}

/// Who waited too long goes before a seat is freed.
#[tactic(auto, unfolding(crate::specs::Worked::whole_run))]
pub fn expiry_before_finish()
    ensures { ExpiryBeforeFinish }
{}

/// Round robin goes on from its place when a pod comes.
#[tactic(auto, unfolding(crate::specs::Worked::whole_run))]
pub fn round_robin_pod_comes_late()
    ensures { RoundRobinPodComesLate }
{}

/// A pod takes eleven requests for its one seat, past the activator.
#[tactic(auto, unfolding(crate::specs::Worked::whole_run))]
pub fn pod_queue_full()
    ensures { PodQueueFull }
{}

/// One that is held doesn't run; both that find a seat when the pod is ready are assigned at once, in the order of arrival.
#[tactic(auto, unfolding(crate::specs::Worked::whole_run))]
pub fn held_until_ready()
    ensures { HeldUntilReady }
{}

/// One that is queued at a pod doesn't run; a greater limit lets two of them run at once, in order.
#[tactic(auto, unfolding(crate::specs::Worked::whole_run))]
pub fn queued_until_free()
    ensures { QueuedUntilFree }
{}

/// With 20,000 live requests an arrival is refused before anything else is looked at, in serve mode too; with one less it is
/// served.
#[tactic(auto, unfolding(crate::specs::Events::act_row, crate::specs::Capacity::pod_full))]
pub fn overload_in_serve_mode()
    ensures first { OverloadComesFirst }
    ensures one_less { OneLessIsServed }
{}

/// A busy pod drains first, and goes when it is empty; an assignment comes before that.
#[tactic(auto, unfolding(crate::specs::Worked::whole_run))]
pub fn scale_down_while_busy()
    ensures { ScaleDownWhileBusy }
{}

/// A revision without load is inactive after its window, and its pod goes after the grace period.
#[tactic(auto, unfolding(crate::specs::Worked::whole_run))]
pub fn scale_to_zero_after_grace()
    ensures { ScaleToZeroAfterGrace }
{}

/// An arrival wakes a revision without pods.
#[tactic(auto, unfolding(crate::specs::Worked::whole_run))]
pub fn scale_from_zero()
    ensures { ScaleFromZero }
{}

/// And gets no more pods than max-scale.
#[tactic(auto, unfolding(crate::specs::Worked::whole_run))]
pub fn scale_from_zero_max_1()
    ensures { ScaleFromZeroMax1 }
{}

/// An average over a window in a pause of 10^9 seconds.
#[tactic(auto, unfolding(crate::specs::Worked::whole_run))]
pub fn very_long_pause()
    ensures { VeryLongPause }
{}

/// A draining pod runs what is queued at it, and an expiry empties none.
#[tactic(auto, unfolding(crate::specs::Worked::whole_run))]
pub fn draining_pod_runs_its_queue()
    ensures { DrainingPodRunsItsQueue }
{}

/// A decision on arrival is a whole decision: it drains pods that still stand.
#[tactic(auto, unfolding(crate::specs::Worked::whole_run))]
pub fn wake_decision_drains()
    ensures { WakeDecisionDrains }
{}

/// The initial scale rules over max-scale until it was reached.
#[tactic(auto, unfolding(crate::specs::Worked::whole_run))]
pub fn initial_scale_above_max()
    ensures { InitialScaleAboveMax }
{}

/// A revision that waits for its first pod is reached through the activator, whatever its excess.
#[tactic(auto, unfolding(crate::specs::Worked::whole_run))]
pub fn wakes_in_proxy_mode()
    ensures { WakesInProxyMode }
{}

/// In proxy mode the grace period counts from the mode, which is as old as the revision.
#[tactic(auto, unfolding(crate::specs::Worked::whole_run))]
pub fn grace_counts_from_the_mode()
    ensures { GraceCountsFromTheMode }
{}

/// While it is activating a revision wants what it wanted; the initial scale was reached once for all.
#[tactic(auto, unfolding(crate::specs::Worked::whole_run))]
pub fn activating_keeps_its_scale()
    ensures { ActivatingKeepsItsScale }
{}

/// A pod that gets ready within a second counts at its end.
#[tactic(auto, unfolding(crate::specs::Worked::whole_run))]
pub fn ready_within_the_second()
    ensures { ReadyWithinTheSecond }
{}

/// A second with a load is a sample without a ready pod.
#[tactic(auto, unfolding(crate::specs::Worked::whole_run))]
pub fn load_without_a_ready_pod()
    ensures { LoadWithoutAReadyPod }
{}

/// A request that its pod refuses takes a turn; the next goes to the next pod.
#[tactic(auto, unfolding(crate::specs::Worked::whole_run))]
pub fn refused_turns_count()
    ensures { RefusedTurnsCount }
{}

/// A count above 0 is raised to the activation scale: one request asks for three pods.
#[tactic(auto, unfolding(crate::specs::Worked::whole_run))]
pub fn activation_scale()
    ensures { ActivationScale }
{}

/// Without scale to zero one pod stays, and the revision stays active.
#[tactic(auto, unfolding(crate::specs::Worked::whole_run))]
pub fn no_scale_to_zero()
    ensures { NoScaleToZero }
{}

/// Within the delay the greatest count of before counts, and at its end no more.
#[tactic(auto, unfolding(crate::specs::Worked::whole_run))]
pub fn delay_keeps_pods()
    ensures { DelayKeepsPods }
{}

/// The random words are those of Pcg32.
#[tactic(auto, unfolding(crate::specs::Worked::whole_run))]
pub fn first_words()
    ensures seven { FirstWords }
    ensures zero { FirstWordsOfZero }
{}
