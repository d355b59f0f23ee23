//! What one more row changes of the pods of a trace. No function here computes anything: each says by its clauses what is
//! proved of the definitions.
ghost use Rattle.std.specs.Prelude.{◌≡◌, ℕ, ◌++◌, [], ◌∷◌, Some};
ghost use Rattle.kn_event.specs.declared.entry.Row.{Row};
ghost use Rattle.kn_event.specs.declared.event.Act.TheVariants as act;
ghost use Rattle.kn_event.specs.declared.revision.Spec.{Spec};
ghost use Rattle.kn_event.specs.Lists.{contains};
ghost use Rattle.kn_trace.specs.Events.{act_row};
ghost use Rattle.kn_trace.specs.Trace.{Trace, entry, live_pods};
ghost use Rattle.kn_record.specs.Made.{IsMade, IsProper};
ghost use Rattle.kn_pods.specs.Pods.{PodsState, ArePodsOf, after_row, is_live, lost_row, no_pods, ready_row};

use kn_record::append::{append_laws, order_laws};

/// Pods that stand for a trace that events made go on by a row that is proper where it comes, and say which pods are live,
/// and what is answered of a pod that is said to be Ready, or lost.
pub fn row_laws()
    ensures nothing { ArePodsOf no_pods [] }
    ensures made { (s : Spec) (c : Trace) (t : ℕ) (x : Row) → IsMade s c → IsProper s c x → IsMade s (c ++ entry t x ∷ []) }
    ensures stands { (s : Spec) (c : Trace) (t : ℕ) (x : Row) (pods : PodsState) → IsMade s c → IsProper s c x → ArePodsOf pods c → ArePodsOf (after_row x pods) (c ++ entry t x ∷ []) }
    ensures live { (s : Spec) (c : Trace) (p : ℕ) (pods : PodsState) → IsMade s c → ArePodsOf pods c → contains p (live_pods c) ≡ is_live p pods }
    ensures lost { (s : Spec) (c : Trace) (p : ℕ) (pods : PodsState) → IsMade s c → ArePodsOf pods c → act_row s c (act.Lost p) ≡ Some (lost_row p (is_live p pods)) }
    ensures ready { (s : Spec) (c : Trace) (p : ℕ) (pods : PodsState) → IsMade s c → ArePodsOf pods c → act_row s c (act.Ready p) ≡ Some (ready_row p pods) }
{
    append_laws();
    order_laws();
}
