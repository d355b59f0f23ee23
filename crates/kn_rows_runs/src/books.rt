//! Which address each pod has: each contract is computed by the checker.
ghost use Rattle.kn_rows_runs.specs.Books.{ByNumber, CallsNobody, FirstGetsIt, LeastFirst, TwoGo, TwoWait, WaitingGoes};

/// Addresses are given in turn while there are any, and as pods go.
#[tactic(auto, unfolding(crate::specs::Books::whole_book))]
pub fn addresses()
    ensures two_wait { TwoWait }
    ensures first { FirstGetsIt }
    ensures two_go { TwoGo }
    ensures waiting { WaitingGoes }
    ensures least { LeastFirst }
{}

/// Whom a call reaches without addresses, and where a pod waits for one.
#[tactic(auto, unfolding(crate::specs::Books::whole_book))]
pub fn calls()
    ensures by_number { ByNumber }
    ensures nobody { CallsNobody }
{}
