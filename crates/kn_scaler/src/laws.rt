//! How the rows that a Scaler answers for lie among those of an event, and which leave it. No function here computes anything.
ghost use Rattle.std.specs.Prelude.{◌≡◌, ℕ, false, ◌++◌};
ghost use Rattle.kn_event.specs.declared.entry.Row.{Row};
ghost use Rattle.kn_event.specs.declared.revision.Spec.{Spec};
ghost use Rattle.kn_scaling.specs.Decide.{Ruling};
ghost use Rattle.kn_trace.specs.Scale.{decision_rows, scale_rows, where_true};
ghost use Rattle.kn_trace.specs.Settling.{settling};
ghost use Rattle.kn_trace.specs.Trace.{Trace, entry};
ghost use Rattle.kn_record.specs.Made.{Holds, IsMade, IsProper};
ghost use Rattle.kn_laws.specs.Kinds.{Each, EachAt};
ghost use Rattle.kn_scaler.specs.Rows.{IsBeside, is_quiet, ruling_rows, says_scale, settles};
ghost use Rattle.kn_scaler.specs.Stands.{ScalerState, IsScalerOfTrace};

use crate::facts::trace_facts;
use kn_record::append::{append_laws, order_laws};

/// The rows of a decision are those that it is answered by, and then those of the pods. A proper row that says nothing of
/// the scale, and that of no pod that it is Ready, leaves no more pods Ready than before.
#[tactic(auto, unfolding(kn_trace::specs::Scale::decision_rows))]
pub fn row_laws()
    ensures split { (s : Spec) (t : ℕ) (c : Trace) (made : Ruling) → decision_rows s t c made ≡ ruling_rows t c made ++ where_true made.decision.applied (scale_rows s t c made.decision.want) }
    ensures beside { (s : Spec) (c : Trace) (t : ℕ) (x : Row) → IsMade s c → IsProper s c x → says_scale x ≡ false → IsBeside c (entry t x) }
{
    append_laws();
}

/// Rows that change nothing of live requests and say nothing of the scale leave a Scaler standing for the trace with them.
pub fn quiet_laws()
    ensures { (s : Spec) (x : ScalerState) (c es : Trace) → IsMade s c → Holds (IsProper s) c es → EachAt x.stats.time es → Each is_quiet es → IsScalerOfTrace s x c → IsScalerOfTrace s x (c ++ es) }
{
    row_laws();
    trace_facts();
    order_laws();
}

/// The rows of a settling are of its kinds, those of a scale are quiet, and each has its time.
pub fn kind_laws()
    ensures settling { (s : Spec) (t : ℕ) (c : Trace) → Each settles (settling s t c) }
    ensures settling_at { (s : Spec) (t : ℕ) (c : Trace) → EachAt t (settling s t c) }
    ensures scale { (s : Spec) (t : ℕ) (c : Trace) (want : ℕ) → Each is_quiet (scale_rows s t c want) }
    ensures scale_at { (s : Spec) (t : ℕ) (c : Trace) (want : ℕ) → EachAt t (scale_rows s t c want) }
{}
