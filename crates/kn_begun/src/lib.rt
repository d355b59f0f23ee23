//! How long the requests of a run waited until they began to run. Nothing is computed here.
#![tactic(auto)]

ghost use Rattle.std.specs.Prelude.{◌≡◌, ℕ, ◌-◌, ◌*◌, ◌<◌, ◌≤◌, ◌++◌, ◌∷◌, [], List, length, sum};
ghost use Rattle.kn_event.specs.declared.entry.Entry.{Entry};
ghost use Rattle.kn_event.specs.declared.event.Event.{Event};
ghost use Rattle.kn_event.specs.declared.revision.Spec.{Spec};
ghost use Rattle.kn_trace.specs.Events.{trace_of};
ghost use Rattle.kn_trace.specs.Trace.{Trace, arrivals};
ghost use Rattle.kn_laws.specs.History.{AreInOrder};
ghost use Rattle.kn_record.specs.Made.{IsMade};
ghost use Rattle.kn_begun.specs.Begun.{BeginInTime, wait_by, waits};

use kn_laws::laws::trace_laws;
use kn_laws::parts::part_laws;
use kn_lives::laws::row_laws;
use kn_record::facts::fact_laws;
use kn_sizes::sizes::size_laws;

/// A request that begins to run had waited less than its timeout, since who waited too long expires first in each event.
/// No more began than arrived.
pub fn begin_laws()
    ensures in_time { (s : Spec) (c : Trace) (e : Event) → 0 < s.timeout_ms → IsMade s c → BeginInTime s c e }
    ensures few { (s : Spec) (c : Trace) → IsMade s c → length (waits c) ≤ arrivals c }
    ensures first { waits [] ≡ [] }
    ensures append { (c : Trace) (x : Entry) → waits (c ++ x ∷ []) ≡ waits c ++ wait_by c x }
{
    fact_laws();
    part_laws();
    row_laws();
}

/// Together those that ran had waited no longer than the 20,000 requests that may live would all the time, from the start
/// to the last event.
pub fn sum_laws()
    ensures { (s : Spec) (start to : ℕ) (es : List Event) → AreInOrder start es to → sum (waits (trace_of s start es)) ≤ 20000 * (to - start) }
{
    fact_laws();
    part_laws();
    row_laws();
    size_laws();
    trace_laws();
}
