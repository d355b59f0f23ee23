//! What each policy chooses.
ghost use Rattle.kn_rows_net.specs.Choices.{ChosenOfThree, FirstOfThree, RoundOfThree, TwoOfThree};

/// Of three Ready pods of limit 4 the second is full.
#[tactic(auto, unfolding(kn_trace::specs::Worked::whole_run))]
pub fn policies_of_three()
    ensures first { FirstOfThree }
    ensures round { RoundOfThree }
    ensures two { TwoOfThree }
    ensures chosen { ChosenOfThree }
{}
