//! Who is taken in, held, queued or refused, and where it goes.
ghost use Rattle.kn_rows_net.specs.Admission.{WaitsEndFirstReport, WaitsEndFirstLastLine, WaitsEndFirstTold, WaitsEndFirstStand, RandomChoiceOfThreeReport, RandomChoiceOfThreeLastLine, RandomChoiceOfThreeTold, RandomChoiceOfThreeStand, RoundRobinOfThreeReport, RoundRobinOfThreeLastLine, RoundRobinOfThreeTold, RoundRobinOfThreeStand, PodFullByLimitReport, PodFullByLimitLastLine, PodFullByLimitTold, PodFullByLimitStand, FullPodKeepsItsTurnReport, FullPodKeepsItsTurnLastLine, FullPodKeepsItsTurnTold, FullPodKeepsItsTurnStand, BreakerRefusesThenTurnsReport, BreakerRefusesThenTurnsLastLine, BreakerRefusesThenTurnsTold, BreakerRefusesThenTurnsStand, InUseAndSeatsReport, InUseAndSeatsLastLine, InUseAndSeatsTold, InUseAndSeatsStand, ServeThenProxyReport, ServeThenProxyLastLine, ServeThenProxyTold, ServeThenProxyStand};

/// Held requests whose timeout is just reached end first, by number and before the act: at a pass, at an arrival and
/// at an act that is refused. Running ones never expire. A limit that is set while its pod is starting stays; a
/// raised limit assigns several at once; the breaker is full at its depth and its maximum together, whatever the
/// capacity.
#[tactic(auto, unfolding(kn_trace::specs::Worked::whole_run))]
pub fn waits_end_first()
    ensures report { WaitsEndFirstReport }
    ensures last_line { WaitsEndFirstLastLine }
    ensures told { WaitsEndFirstTold }
    ensures stand { WaitsEndFirstStand }
{}

/// Each assignment draws two words, with a single free pod too. They name two of the pods with a free seat, the
/// second past the first; fewer running requests win, and the first at a tie. A pod without a limit is free and
/// counts as the maximum; setting the same limit again has its row.
#[tactic(auto, unfolding(kn_trace::specs::Worked::whole_run))]
pub fn random_choice_of_three()
    ensures report { RandomChoiceOfThreeReport }
    ensures last_line { RandomChoiceOfThreeLastLine }
    ensures told { RandomChoiceOfThreeTold }
    ensures stand { RandomChoiceOfThreeStand }
{}

/// The place is one past the position that the last assigned pod had just before its assignment: a pod that gets
/// ready later does not move it. Ready pods are in the order of their numbers. A missing pod and a Ready one refuse
/// `ready`; a tick of a fixed revision does nothing.
#[tactic(auto, unfolding(kn_trace::specs::Worked::whole_run))]
pub fn round_robin_of_three()
    ensures report { RoundRobinOfThreeReport }
    ensures last_line { RoundRobinOfThreeLastLine }
    ensures told { RoundRobinOfThreeTold }
    ensures stand { RoundRobinOfThreeStand }
{}

/// A pod is full at eleven requests for each of its present limit, queued and running ones together, after the limit
/// was cut or raised. A cut limit stops nobody. In serve mode the pod itself refuses.
#[tactic(auto, unfolding(kn_trace::specs::Worked::whole_run))]
pub fn pod_full_by_limit()
    ensures report { PodFullByLimitReport }
    ensures last_line { PodFullByLimitLastLine }
    ensures told { PodFullByLimitTold }
    ensures stand { PodFullByLimitStand }
{}

/// The turn falls on the full pod and no other is tried; the refusal takes a turn, so the next request goes to the
/// next pod. An assigned request counts towards a full pod. A pod without a limit is never full, and runs its whole
/// queue at once.
#[tactic(auto, unfolding(kn_trace::specs::Worked::whole_run))]
pub fn full_pod_keeps_its_turn()
    ensures report { FullPodKeepsItsTurnReport }
    ensures last_line { FullPodKeepsItsTurnLastLine }
    ensures told { FullPodKeepsItsTurnTold }
    ensures stand { FullPodKeepsItsTurnStand }
{}

/// A refusal of the breaker takes no turn. The capacity is the maximum at most, however many pods are Ready. Held
/// requests keep nobody from going past the activator; a queued request cannot finish.
#[tactic(auto, unfolding(kn_trace::specs::Worked::whole_run))]
pub fn breaker_refuses_then_turns()
    ensures report { BreakerRefusesThenTurnsReport }
    ensures last_line { BreakerRefusesThenTurnsLastLine }
    ensures told { BreakerRefusesThenTurnsTold }
    ensures stand { BreakerRefusesThenTurnsStand }
{}

/// In use are assigned requests alone, neither those that went past the activator nor queued ones; the breaker counts
/// the admitted ones alone. A failed finish ends the load. The excess is rounded down once. The turn goes on from one
/// serve mode to the next.
#[tactic(auto, unfolding(kn_trace::specs::Worked::whole_run))]
pub fn in_use_and_seats()
    ensures report { InUseAndSeatsReport }
    ensures last_line { InUseAndSeatsLastLine }
    ensures told { InUseAndSeatsTold }
    ensures stand { InUseAndSeatsStand }
{}

/// From serve mode to proxy mode: queued and held requests expire in the order of their numbers, and a queue is first
/// in, first out. The up rate rounds up and bounds the count, while panic looks at the count before that; min-scale
/// stands above the initial scale.
#[tactic(auto, unfolding(kn_trace::specs::Worked::whole_run))]
pub fn serve_then_proxy()
    ensures report { ServeThenProxyReport }
    ensures last_line { ServeThenProxyLastLine }
    ensures told { ServeThenProxyTold }
    ensures stand { ServeThenProxyStand }
{}
