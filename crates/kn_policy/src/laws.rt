//! Of choices and picks.
ghost use Rattle.std.specs.Prelude.{◌≡◌, ◌+◌, ℕ, false, nat_lt, List, None};
ghost use Rattle.std.specs.List.{count_by, list_any};
ghost use Rattle.kn_trace.specs.declared.candidate.Cand.{Cand};
ghost use Rattle.kn_trace.specs.Choice.{chosen_pod, has_seat};
ghost use Rattle.kn_policy.specs.Policy.{picked, place_past, policy_at};

/// A pod has a free seat exactly where their count is above 0. No pod is chosen where none has one. A policy that picks one more pod has picked one more, and its place is past it.
pub fn choice_laws()
    ensures none { (concurrency seed place picks : ℕ) (cands : List Cand) → list_any has_seat cands ≡ false → chosen_pod concurrency seed place picks cands ≡ None }
    ensures counted { (cands : List Cand) → list_any has_seat cands ≡ nat_lt 0 (count_by has_seat cands) }
    ensures picked { (concurrency seed place picks p : ℕ) (cands : List Cand) → picked p cands (policy_at concurrency seed place picks) ≡ policy_at concurrency seed (place_past p cands) (picks + 1) }
{}
