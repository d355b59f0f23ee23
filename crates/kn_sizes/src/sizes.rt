//! How many there are.
ghost use Rattle.std.specs.Prelude.{◌≡◌, ℕ, ◌+◌, ◌≤◌, ◌++◌, List, length};
ghost use Rattle.kn_event.specs.Revision.{AreInRange};
ghost use Rattle.kn_event.specs.declared.event.Act.TheVariants as act;
ghost use Rattle.kn_event.specs.declared.event.Event.{Event};
ghost use Rattle.kn_event.specs.declared.revision.Spec.{Spec};
ghost use Rattle.kn_trace.specs.Events.{before_settling, expiries, need_of, react, trace_of};
ghost use Rattle.kn_trace.specs.Laws.{IsSettled};
ghost use Rattle.kn_trace.specs.Scale.{drain_order, wanted};
ghost use Rattle.kn_trace.specs.Settling.{settling};
ghost use Rattle.kn_trace.specs.Trace.{Trace, arrivals, draining, live, live_pods};
ghost use Rattle.kn_laws.specs.History.{IsMadeBy};
ghost use Rattle.kn_record.specs.Made.{IsMade};

use kn_laws::laws::trace_laws;
use kn_laws::parts::part_laws;
use kn_record::facts::fact_laws;

/// Of any trace that events made, at most 20,000 requests are live, at most 500 pods do not drain, and at most 500 are
/// wanted. Where it is settled, as after each event, at most 20,000 pods drain, and at most 20,500 live, also until the next
/// settling begins.
pub fn size_laws()
    ensures live { (s : Spec) (c : Trace) → IsMade s c → length (live c) ≤ 20000 }
    ensures standing { (s : Spec) (c : Trace) → AreInRange s → IsMade s c → length (drain_order c) ≤ 500 }
    ensures wanted { (s : Spec) (c : Trace) → AreInRange s → IsMade s c → wanted s c ≤ 500 }
    ensures pods { (s : Spec) (c : Trace) → AreInRange s → IsMade s c → IsSettled s c → length (live_pods c) ≤ 20500 }
    ensures draining { (s : Spec) (c : Trace) → IsMade s c → IsSettled s c → length (draining c) ≤ 20000 }
    ensures pods_before { (s : Spec) (c : Trace) (e : Event) → AreInRange s → IsMade s c → IsSettled s c → length (live_pods (c ++ before_settling s c e)) ≤ 20500 }
    ensures trace_live { (s : Spec) (start : ℕ) (es : List Event) → length (live (trace_of s start es)) ≤ 20000 }
    ensures trace_pods { (s : Spec) (start : ℕ) (es : List Event) → AreInRange s → length (live_pods (trace_of s start es)) ≤ 20500 }
{
    fact_laws();
    trace_laws();
    part_laws();
}

/// An event lets the live requests grow by at most the need of its act less one: by one at an arrival; where it finishes a
/// running request or cancels a waiting one, they become fewer.
pub fn growth_laws()
    ensures live { (s : Spec) (c : Trace) (e : Event) → IsMade s c → length (live (c ++ react s c e)) + 1 ≤ length (live c) + need_of c e.act }
{
    fact_laws();
    part_laws();
}

/// No more requests arrived than there were events.
pub fn count_laws()
    ensures arrivals { (s : Spec) (start clock count : ℕ) (c : Trace) → IsMadeBy s start clock count c → arrivals c ≤ count }
{
    fact_laws();
    part_laws();
}

/// How many entries an event adds: at most 41,005, and where no pod is lost at most 21,006, since each draining pod runs
/// a request and an event takes each live request forward once. Of those at most 20,505 come before its settling, and of
/// these at most 20,000 are expiries.
pub fn entry_laws()
    ensures entries { (s : Spec) (c : Trace) (e : Event) → AreInRange s → IsMade s c → IsSettled s c → length (react s c e) ≤ 41005 }
    ensures fewer { (s : Spec) (c : Trace) (e : Event) → AreInRange s → IsMade s c → IsSettled s c → ((p : ℕ) → e.act ≡ act.Lost p → ⊥) → length (react s c e) ≤ 21006 }
    ensures expiries { (s : Spec) (c : Trace) (t : ℕ) → IsMade s c → length (expiries s t c) ≤ 20000 }
    ensures before { (s : Spec) (c : Trace) (e : Event) → AreInRange s → IsMade s c → length (before_settling s c e) ≤ 20505 }
    ensures settling { (s : Spec) (c : Trace) (e : Event) → AreInRange s → IsMade s c → IsSettled s c → length (settling s e.time (c ++ before_settling s c e)) ≤ 40500 }
    ensures trace { (s : Spec) (start : ℕ) (es : List Event) (e : Event) → AreInRange s → length (react s (trace_of s start es) e) ≤ 41005 }
{
    fact_laws();
    trace_laws();
    part_laws();
}
