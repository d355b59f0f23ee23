//! The throttler: what it keeps, and what it answers about it.
ghost use Rattle.std.specs.Prelude.{◌≡◌, IfOk, true, length};
ghost use Rattle.kn_event.specs.declared.revision.Spec.{Spec};
ghost use Rattle.kn_event.specs.Lists.{contains};
ghost use Rattle.kn_trace.specs.Trace.{Trace, first_of, proxied, stand_of};
ghost use Rattle.kn_trace.specs.Events.{due, lost_with};
ghost use Rattle.kn_record.specs.Admission.{is_assigned_place, is_at, nothing_yet, placed_in};
ghost use Rattle.kn_record.specs.Made.{IsRecordOf};
ghost use Rattle.kn_record.specs.Views.{due_in, pod_numbers, stand_in, stand_of_place};

mod arriving;
mod dispatching;
mod ending;
mod gauges;
mod lifecycle;
mod settling;

use crate::candidates::Candidates;
use crate::pods::Pods;
use crate::touched::Touched;
pub use arriving::Arrival;
pub use dispatching::Dispatch;
use kn_breaker::Breaker;
use kn_event::{Memory, Spec, Stand};
use kn_policy::Policy;
use kn_record::Place;
use kn_record::append::append_laws;
use kn_seats::Seats;
use kn_table::Table;
use settling::is_idle;
use std::alloc::Global;
use std::marker::Model;

/// The activator's throttler of one revision: it decides which requests are admitted, where they go, when they run, and which
/// pods are removed.
///
/// Contracts see the revision's specification and the record of requests and pods, which stands for the trace of the entries
/// so far. Each call says which row it adds, for every trace that the record stands for. Times are in milliseconds and never
/// fall. Only `new` takes memory.
pub struct Throttle {
    spec: Spec,
    table: Table,
    pods: Pods,
    seats: Seats,
    candidates: Candidates,
    breaker: Breaker,
    policy: Policy,
    to_run: Touched,
    to_leave: Touched,
    arrivals: u64,
    created: u64,
    assignments: u64,
    turn: u64,
}

impl Drop for Throttle {
    fn drop(self) {
        let Throttle {
            spec: _,
            table: _,
            pods: _,
            seats: _,
            candidates: _,
            breaker: _,
            policy: _,
            to_run: _,
            to_leave: _,
            arrivals: _,
            created: _,
            assignments: _,
            turn: _,
        } = self;
    }
}

impl Model for Throttle {
    ghost use Rattle.kn_throttle.specs.State.{State};
    ghost use Rattle.kn_throttle.specs.Kept.{IsKept};

    ghost Value = { State };

    ghost view = { λ t. record { spec = t.spec; admission = record { arrivals = t.arrivals; live = t.table; created = t.created; pods = t.pods; assignments = t.assignments; robin = t.policy.place; turn = t.turn } } };

    ghost invariant = { λ t. IsKept t.spec (record { arrivals = t.arrivals; live = t.table; created = t.created; pods = t.pods; assignments = t.assignments; robin = t.policy.place; turn = t.turn }) t.breaker t.seats t.candidates t.policy t.to_run t.to_leave };
}

impl Throttle {
    /// A throttler without requests and pods, with all the memory that it will take.
    pub fn new(alloc: Global, spec: &Spec) -> Result<Throttle, Memory>
        ensures { IfOk result (λ t. t ≡ record { spec = spec.now; admission = nothing_yet }) }
    {
        let copied = spec.copy(alloc)?;
        let table = Table::new(alloc)?;
        let seats = Seats::new(alloc, 20_500, 20_000)?;
        let pods = Pods::new(alloc)?;
        let candidates = Candidates::new(alloc)?;
        let breaker = Breaker::new(copied.slots.depth, copied.slots.max, 0);
        let policy = Policy::new(copied.cc, copied.slots.seed);
        Ok(Throttle {
            spec: copied,
            table,
            pods,
            seats,
            candidates,
            breaker,
            policy,
            to_run: Touched::Nowhere,
            to_leave: Touched::Nowhere,
            arrivals: 0,
            created: 0,
            assignments: 0,
            turn: 0,
        })
    }

    /// The least number of a request that has waited for its whole timeout at this time. None where there is none.
    pub fn due(&self, time: u64) -> Option<u64>
        ensures value { result ≡ first_of (due_in self.now.spec.timeout_ms time self.now.admission.live) }
        ensures due { (c : Trace) → IsRecordOf self.now.admission c → result ≡ first_of (due self.now.spec time c) }
    {
        append_laws();
        self.table.first_due(self.spec.timeout_ms, time)
    }

    /// Where a request stands: unknown where it has not arrived, ended where it has ended or was refused.
    #[inline(always)]
    pub fn stand(&self, r: u64) -> Stand
        ensures value { result ≡ stand_in self.now.admission r }
        ensures stand { (c : Trace) → IsRecordOf self.now.admission c → result ≡ stand_of c r }
    {
        append_laws();
        if r >= self.arrivals {
            return Stand::Unknown;
        }
        match self.table.get(r) {
            None => Stand::Ended,
            Some(request) => stand_of_place(request.place),
        }
    }

    /// How many requests have come, which is the number of the next one.
    pub fn arrivals(&self) -> u64
        ensures { result ≡ self.now.admission.arrivals }
    {
        self.arrivals
    }

    /// How many requests are live.
    pub fn live(&self) -> u64
        ensures { result ≡ length self.now.admission.live }
    {
        self.table.len()
    }

    /// Whether a request was assigned to a pod, and has not ended.
    #[inline(always)]
    pub fn proxied(&self, r: u64) -> bool
        ensures value { result ≡ contains r (placed_in is_assigned_place self.now.admission.live) }
        ensures proxied { (c : Trace) → IsRecordOf self.now.admission c → result ≡ proxied c r }
    {
        append_laws();
        match self.table.get(r) {
            None => false,
            Some(request) => is_assigned(request.place),
        }
    }

    /// The live request of the least number at a pod. None where there is none.
    pub fn first_at(&self, p: u64) -> Option<u64>
        requires { contains p (pod_numbers self.now.admission.pods) ≡ true }
        ensures value { result ≡ first_of (placed_in (is_at p) self.now.admission.live) }
        ensures first { (c : Trace) → IsRecordOf self.now.admission c → result ≡ first_of (lost_with c p) }
    {
        append_laws();
        // (the table is looked through for those alone that have one)
        if is_idle(self.seats.running(p), self.seats.queued(p)) {
            return None;
        }
        self.table.first_at(p)
    }
}

#[inline]
fn stand_of_place(place: Place) -> Stand
    ensures { result ≡ stand_of_place place }
{
    match place {
        Place::Held => Stand::Held,
        Place::Queued(p) => Stand::Queued(p),
        Place::Running(p, _) => Stand::Running(p),
    }
}

#[inline]
fn is_assigned(place: Place) -> bool
    ensures { result ≡ is_assigned_place place }
{
    match place {
        Place::Running(_, assigned) => assigned,
        _ => false,
    }
}
