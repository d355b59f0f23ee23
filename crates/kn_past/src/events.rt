//! The same of traces that events made, and by one event.
ghost use Rattle.std.specs.Prelude.{◌≡◌, ℕ, ◌+◌, ◌*◌, ◌≤◌, ◌++◌, Some, length};
ghost use Rattle.std.specs.Option.{IfSome};
ghost use Rattle.kn_event.specs.declared.event.Event.{Event};
ghost use Rattle.kn_event.specs.declared.revision.Metric.{Metric};
ghost use Rattle.kn_event.specs.declared.revision.Spec.{Spec};
ghost use Rattle.kn_scaling.specs.Average.{IsAverage, window_average};
ghost use Rattle.kn_trace.specs.Events.{react};
ghost use Rattle.kn_trace.specs.Load.{count_in, load_in, samples};
ghost use Rattle.kn_trace.specs.Rows.{ended_by, taken_by};
ghost use Rattle.kn_trace.specs.Trace.{Trace, each_row, live};
ghost use Rattle.kn_laws.specs.History.{IsMadeBy};
ghost use Rattle.kn_past.specs.Loads.{after_sum};
ghost use Rattle.kn_past.specs.Seconds.{end_of_second};

use kn_laws::laws;
use kn_laws::parts::part_laws;
use kn_record::facts::fact_laws;
use kn_sizes::sizes::size_laws;

/// Of every trace that some events made in order: the load of a second by starts and ends, the live requests by starts and
/// ends, the load of a second after the clock; a load is at most 20,000,000, a value by either metric at most 10^9, and an
/// average over at most an hour at most a million.
pub fn history_laws()
    ensures balance { (s : Spec) (start clock count : ℕ) (c : Trace) (second : ℕ) → IsMadeBy s start clock count c → load_in c second + after_sum ended_by second c ≡ after_sum taken_by second c }
    ensures live { (s : Spec) (start clock count : ℕ) (c : Trace) → IsMadeBy s start clock count c → length (live c) + length (each_row ended_by c) ≡ length (each_row taken_by c) }
    ensures quiet { (s : Spec) (start clock count : ℕ) (c : Trace) (second : ℕ) → IsMadeBy s start clock count c → clock ≤ 1000 * second → load_in c second ≡ 1000 * length (live c) }
    ensures load { (s : Spec) (start clock count : ℕ) (c : Trace) (second : ℕ) → IsMadeBy s start clock count c → load_in c second ≤ 20000000 }
    ensures value { (s : Spec) (start clock count : ℕ) (m : Metric) (c : Trace) (second value : ℕ) → IsMadeBy s start clock count c → samples m c second ≡ Some value → value ≤ 1000000000 }
    ensures average { (s : Spec) (start clock count : ℕ) (m : Metric) (c : Trace) (n end : ℕ) → IsMadeBy s start clock count c → n ≤ 3600 → IfSome (window_average (samples m c) n end) IsAverage }
{
    laws::history_laws();
    size_laws();
    fact_laws();
}

/// An event changes no second that is over by its time, and no average over such seconds.
pub fn event_laws()
    ensures load { (s : Spec) (c : Trace) (e : Event) (second : ℕ) → end_of_second second ≤ e.time → load_in (c ++ react s c e) second ≡ load_in c second }
    ensures count { (s : Spec) (c : Trace) (e : Event) (second : ℕ) → end_of_second second ≤ e.time → count_in (c ++ react s c e) second ≡ count_in c second }
    ensures sample { (s : Spec) (m : Metric) (c : Trace) (e : Event) (second : ℕ) → end_of_second second ≤ e.time → samples m (c ++ react s c e) second ≡ samples m c second }
    ensures average { (s : Spec) (m : Metric) (c : Trace) (e : Event) (n end : ℕ) → 1000 * end ≤ e.time → window_average (samples m (c ++ react s c e)) n end ≡ window_average (samples m c) n end }
{
    part_laws();
}
