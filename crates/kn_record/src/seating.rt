//! Of the pod that a policy chooses.
ghost use Rattle.std.specs.Prelude.{◌≡◌, ℕ, true, List, Some, map};
ghost use Rattle.std.specs.List.{filter};
ghost use Rattle.kn_event.specs.Lists.{contains};
ghost use Rattle.kn_trace.specs.declared.candidate.Cand.{Cand};
ghost use Rattle.kn_trace.specs.Choice.{chosen_pod, has_seat};

/// The pod that is chosen is one of those with a free seat.
pub fn seating_laws()
    ensures { (concurrency seed place picks p : ℕ) (cands : List Cand) → chosen_pod concurrency seed place picks cands ≡ Some p → contains p (map (λ (k : Cand). k.pod) (filter has_seat cands)) ≡ true }
{}
