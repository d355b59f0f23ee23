//! Facts of traces that events made. No function here computes anything: each says by its clauses what is proved.
ghost use Rattle.std.specs.Prelude.{◌≡◌, ℕ, All, Bool, IfSome, true};
ghost use Rattle.kn_event.specs.declared.entry.Row.{Row};
ghost use Rattle.kn_event.specs.declared.event.Stand.{Stand};
ghost use Rattle.kn_event.specs.declared.revision.Spec.{Spec};
ghost use Rattle.kn_event.specs.Lists.{contains};
ghost use Rattle.kn_trace.specs.Trace.{Trace, live, proxied, stand_of};
ghost use Rattle.kn_record.specs.declared.admission.Request.{Request};
ghost use Rattle.kn_record.specs.Admission.{Admission, place_of};
ghost use Rattle.kn_record.specs.Made.{IsMade, IsProper, IsRecordOf};
ghost use Rattle.kn_stats.specs.Totals.{CanCount, IsTotalsOf, TotalsState};
ghost use Rattle.kn_changes.specs.Changes.{change_by, changes_of, end_after};
ghost use Rattle.kn_places.specs.Counts.{AreCounted};
ghost use Rattle.kn_places.specs.Ends.{IsToldOf, change_in, end_of, end_of_place};

use kn_changes::laws::step_laws;
use kn_record::append::{append_laws, order_laws};
use kn_record::facts::fact_laws;

/// A request ends by its place: by that of the record, and by where it stands and whether it was assigned. So a row's change
/// is what is said of the row with these.
pub fn place_laws()
    ensures place { (c : Trace) (r : ℕ) → end_after c r ≡ end_of_place (place_of c r) }
    ensures record_place { (a : Admission) (c : Trace) → IsRecordOf a c → All (λ (q : Request). end_after c q.number ≡ end_of_place q.place) a.live }
    ensures stand { (s : Spec) (c : Trace) (r : ℕ) → IsMade s c → contains r (live c) ≡ true → end_after c r ≡ end_of (stand_of c r) (proxied c r) }
    ensures change { (s : Spec) (c : Trace) (x : Row) (at : Stand) (through : Bool) → IsMade s c → IsProper s c x → IsToldOf c x at through → change_in x at through ≡ change_by c x }
{
    append_laws();
    fact_laws();
}

/// By the changes of a trace that events made, as many are live of each way and at each pod as by its record.
pub fn count_laws()
    ensures { (s : Spec) (a : Admission) (c : Trace) → IsMade s c → IsRecordOf a c → AreCounted (changes_of c) a.live }
{
    append_laws();
    order_laws();
    fact_laws();
    step_laws();
}

/// Totals that stand for the changes of a trace may take that of any row that is proper where it comes.
pub fn measure_laws()
    ensures change { (s : Spec) (c : Trace) (x : Row) (totals : TotalsState) → IsMade s c → IsProper s c x → IsTotalsOf totals (changes_of c) → IfSome (change_by c x) (CanCount totals) }
{
    append_laws();
    fact_laws();
    count_laws();
}
