//! How many requests and pods there are after each event of a run: the most of them, and what they come to over time.
#![tactic(auto)]

ghost use Rattle.std.specs.Prelude.{◌≡◌, ◌+◌, ◌-◌, []};
ghost use Rattle.kn_event.specs.Revision.{AreInRange};
ghost use Rattle.kn_event.specs.declared.event.Event.{Event};
ghost use Rattle.kn_laws.specs.History.{AreInOrder};
ghost use Rattle.kn_teller.specs.Run.{Run, later, now_of, trace};
ghost use Rattle.kn_costs.specs.Gauges.{AreBounded, costs, gauges, nothing_at, peaks, with_now, with_time};
ghost use Rattle.kn_costs.specs.Steps.{cold, cold_at};
ghost use Rattle.kn_costs.specs.Sums.{AreSums};

mod gauges;

pub use gauges::{Costs, Gauges, Now, Peaks};
use kn_laws::laws::{history_laws, trace_laws};
use kn_laws::parts::part_laws;
use kn_record::append::{append_laws, order_laws};
use kn_record::facts::fact_laws;
use kn_sizes::sizes::size_laws;

/// What a run begins with, and what one event more changes. Nothing is computed here.
pub fn run_laws()
    ensures clock_first { (r : Run) → r.events ≡ [] → now_of r ≡ r.start }
    ensures clock_next { (r : Run) (e : Event) → now_of (later r e) ≡ e.time }
    ensures peaks_first { (r : Run) → r.events ≡ [] → peaks r ≡ with_now (gauges (trace r)) (nothing_at r.start).peaks }
    ensures peaks_next { (r : Run) (e : Event) → peaks (later r e) ≡ with_now (gauges (trace (later r e))) (peaks r) }
    ensures costs_first { (r : Run) → r.events ≡ [] → costs r ≡ (nothing_at r.start).costs }
    ensures costs_next { (r : Run) (e : Event) → costs (later r e) ≡ with_time (e.time - now_of r) (gauges (trace r)) (costs r) }
    ensures cold_first { (r : Run) → r.events ≡ [] → cold r ≡ 0 }
    ensures cold_next { (r : Run) (e : Event) → cold (later r e) ≡ cold r + cold_at r.spec (trace r) e }
{}

/// No sum is above what the most pods and requests that may live would come to, from the start to the last event. Nothing
/// is computed here.
pub fn bound_laws()
    ensures { (r : Run) → AreInRange r.spec → AreInOrder r.start r.events (now_of r) → AreBounded r }
{
    append_laws();
    fact_laws();
    size_laws();
}

/// What a run's pods and requests cost is the sum over each pod's life, over each one's time of being Ready, and over each
/// request's time of running, from when it began to when it ended or up to the last event. Nothing is computed here.
pub fn cost_laws()
    ensures { (r : Run) → AreInOrder r.start r.events (now_of r) → AreSums r }
{
    append_laws();
    order_laws();
    fact_laws();
    part_laws();
    trace_laws();
    history_laws();
}
