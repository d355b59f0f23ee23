//! Runs of the three policies: each contract is computed by the checker.
ghost use Rattle.kn_rows_runs.specs.Policies.{FirstAvailable, RandomChoiceSeed0, RandomChoiceSeed1, RandomChoiceSeed2, RandomChoiceSeedGreatest, RoundRobin};

/// A limit of 1: the first pod with a free seat.
#[tactic(auto, unfolding(kn_trace::specs::Worked::whole_run))]
pub fn first_available()
    ensures { FirstAvailable }
{}

/// A limit of 4: each pod in turn.
#[tactic(auto, unfolding(kn_trace::specs::Worked::whole_run))]
pub fn round_robin()
    ensures { RoundRobin }
{}

/// No limit: of two pods that the words of the seed name, the less busy one.
#[tactic(auto, unfolding(kn_trace::specs::Worked::whole_run))]
pub fn random_choice()
    ensures seed_0 { RandomChoiceSeed0 }
    ensures seed_1 { RandomChoiceSeed1 }
    ensures seed_2 { RandomChoiceSeed2 }
    ensures greatest { RandomChoiceSeedGreatest }
{}
