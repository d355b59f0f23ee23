//! What follows without a further act: who waits is dispatched, and empty pods go.
ghost use Rattle.std.specs.Prelude.{◌≡◌, ℕ, true, ◌+◌, ◌≤◌, ◌==◌, ◌||◌, ◌&&◌, [], ◌++◌, nat_lt, length, IfSome, IfNone, Some, None, if◌then◌else◌};
ghost use Rattle.kn_event.specs.declared.entry.Row.TheVariants as row;
ghost use Rattle.kn_event.specs.Lists.{contains};
ghost use Rattle.kn_trace.specs.Trace.{Trace, first_of, live_pods};
ghost use Rattle.kn_trace.specs.Settling.{held_assignments, promotions, removals, settling};
ghost use Rattle.kn_record.specs.Made.{IsRecordOf};
ghost use Rattle.kn_record.specs.Views.{pod_numbers};
ghost use Rattle.kn_record.specs.Walks.{promoting};
ghost use Rattle.kn_throttle.specs.Kept.{can_leave, can_run};
ghost use Rattle.kn_throttle.specs.Pods.{pods_where};
ghost use Rattle.kn_throttle.specs.Settling.{AddsNobody, Begins, Ends, IsCalm, LogsSteps, can_leave_at, can_run_at, rows_left};

use super::Throttle;
use super::arriving::LIVE_MOST;
use crate::pods::is_draining;
use crate::touched::Touched;
use kn_event::{Entry, EntryLog, Row};
use kn_policy::choice_laws;
use kn_record::append::{append_laws, loop_laws, order_laws, time_laws, walk_laws};
use kn_record::seating::seating_laws;

impl Throttle {
    ghost use Rattle.kn_throttle.specs.State.{with_row};

    /// Appends what follows from the entries so far: first the queued requests run at each live pod in order while it has a
    /// free seat, then the held ones are assigned while a pod is chosen for the next, then each draining pod without a request
    /// is removed. The log has at most 20,600 entries.
    pub fn settle(&mut self, time: u64, log: &mut EntryLog)
        requires room { length log.old ≤ 20600 }
        ensures logged { (c : Trace) → IsRecordOf self.old.admission c → log.new ≡ log.old ++ settling self.old.spec time c }
        ensures stands { (c : Trace) → IsRecordOf self.old.admission c → IsRecordOf self.new.admission (c ++ settling self.old.spec time c) }
        ensures spec { self.new.spec ≡ self.old.spec }
        ensures steps { LogsSteps self.old.admission self.new.admission log.old log.new }
        ensures nobody { AddsNobody self.old.admission self.new.admission }
        ensures few { length log.new ≤ length log.old + 40500 }
    {
        let live = self.table.len();
        prove!(live <= LIVE_MOST);
        self.run_all(time, log);
        self.assign_all(time, log);
        self.remove_all(time, log);
    }

    fn run_all(&mut self, time: u64, log: &mut EntryLog)
        requires { length log.old + rows_left self.old.admission ≤ 61100 }
        ensures logged { (c : Trace) → IsRecordOf self.old.admission c → log.new ≡ log.old ++ promotions time c (live_pods c) }
        ensures stands { (c : Trace) → IsRecordOf self.old.admission c → IsRecordOf self.new.admission (c ++ promotions time c (live_pods c)) }
        ensures spec { self.new.spec ≡ self.old.spec }
        ensures steps { LogsSteps self.old.admission self.new.admission log.old log.new }
        ensures nobody { AddsNobody self.old.admission self.new.admission }
        ensures room { length log.new + rows_left self.new.admission ≡ length log.old + rows_left self.old.admission }
    {
        append_laws();
        loop_laws();
        time_laws();
        while let Some(r) = self.run_next() {
            log.put(Entry {
                time,
                row: Row::Run(r),
            });
        }
    }

    fn assign_all(&mut self, time: u64, log: &mut EntryLog)
        requires { length log.old + rows_left self.old.admission ≤ 61100 }
        ensures logged { (c : Trace) → IsRecordOf self.old.admission c → log.new ≡ log.old ++ held_assignments self.old.spec time c }
        ensures stands { (c : Trace) → IsRecordOf self.old.admission c → IsRecordOf self.new.admission (c ++ held_assignments self.old.spec time c) }
        ensures spec { self.new.spec ≡ self.old.spec }
        ensures steps { LogsSteps self.old.admission self.new.admission log.old log.new }
        ensures nobody { AddsNobody self.old.admission self.new.admission }
        ensures room { length log.new + rows_left self.new.admission ≡ length log.old + rows_left self.old.admission }
    {
        loop_laws();
        time_laws();
        while let Some((r, p)) = self.assign_next() {
            log.put(Entry {
                time,
                row: Row::Assign(r, p),
            });
        }
    }

    fn remove_all(&mut self, time: u64, log: &mut EntryLog)
        requires { length log.old + rows_left self.old.admission ≤ 61100 }
        ensures logged { (c : Trace) → IsRecordOf self.old.admission c → log.new ≡ log.old ++ removals time c }
        ensures stands { (c : Trace) → IsRecordOf self.old.admission c → IsRecordOf self.new.admission (c ++ removals time c) }
        ensures spec { self.new.spec ≡ self.old.spec }
        ensures steps { LogsSteps self.old.admission self.new.admission log.old log.new }
        ensures nobody { AddsNobody self.old.admission self.new.admission }
        ensures room { length log.new + rows_left self.new.admission ≡ length log.old + rows_left self.old.admission }
    {
        loop_laws();
        time_laws();
        while let Some(p) = self.remove_next() {
            log.put(Entry {
                time,
                row: Row::Remove(p),
            });
        }
    }

    /// Lets the next queued request run, and answers it.
    #[inline(always)]
    pub(super) fn run_next(&mut self) -> Option<u64>
        ensures after { (time : ℕ) → IfSome result (λ r. self.new ≡ with_row time (row.Run r) self.old) }
        ensures unchanged { IfNone result (self.new ≡ self.old) }
        ensures fewer { IfSome result (λ r. rows_left self.new.admission + 1 ≡ rows_left self.old.admission) }
        ensures begins { Begins (λ time. promoting time (pod_numbers self.old.admission.pods)) row.Run self.old.admission result }
        ensures ends { Ends (λ time. promoting time (pod_numbers self.old.admission.pods)) self.old.admission result }
        ensures calm { IfNone result (IsCalm self.old.admission) }
    {
        order_laws();
        walk_laws();
        let Some(p) = self.pod_to_run() else {
            self.to_run = Touched::Nowhere;
            return None;
        };
        match self.seats.promote(p) {
            None => {
                self.to_run = Touched::Nowhere;
                None
            }
            Some(r) => {
                self.candidates.begin(p);
                self.table.run(r);
                Some(r)
            }
        }
    }

    /// Assigns the next held request, and answers it and its pod.
    #[inline(always)]
    pub(super) fn assign_next(&mut self) -> Option<(u64, u64)>
        ensures after { (time : ℕ) → IfSome result (λ x. self.new ≡ with_row time (row.Assign x.0 x.1) self.old) }
        ensures unchanged { IfNone result (self.new ≡ self.old) }
        ensures fewer { IfSome result (λ x. rows_left self.new.admission + 1 ≡ rows_left self.old.admission) }
        ensures begins { Begins (held_assignments self.old.spec) (λ x. row.Assign x.0 x.1) self.old.admission result }
        ensures ends { Ends (held_assignments self.old.spec) self.old.admission result }
        ensures calm { IsCalm self.old.admission → IfSome result (λ x. IsCalm self.new.admission) }
    {
        order_laws();
        walk_laws();
        choice_laws();
        seating_laws();
        let Some(r) = self.table.first_held() else {
            return None;
        };
        if !self.candidates.has_free_seat() {
            return None;
        }
        if !self.breaker.acquire() {
            return None;
        }
        let first = self.candidates.first_free();
        let place = self
            .policy
            .pick_place(
                self.candidates.as_slice(),
                self.candidates.marks(),
                self.candidates.free(),
                first,
            )
            .unwrap();
        let p = self.candidates.begin_at(place);
        let _ = self.seats.reserve_seat(p);
        self.table.assign_first(p);
        self.assignments += 1;
        Some((r, p))
    }

    /// Removes the next draining pod without a request, and answers it.
    fn remove_next(&mut self) -> Option<u64>
        ensures after { (time : ℕ) → IfSome result (λ p. self.new ≡ with_row time (row.Remove p) self.old) }
        ensures unchanged { IfNone result (self.new ≡ self.old) }
        ensures fewer { IfSome result (λ p. rows_left self.new.admission + 1 ≡ rows_left self.old.admission) }
        ensures begins { Begins removals row.Remove self.old.admission result }
        ensures ends { Ends removals self.old.admission result }
    {
        walk_laws();
        match self.pod_to_leave() {
            None => {
                self.to_leave = Touched::Nowhere;
                None
            }
            Some(p) => {
                self.take_away(p);
                Some(p)
            }
        }
    }

    /// The pod at which a queued request may run next, if one may at all.
    #[inline]
    fn pod_to_run(&self) -> Option<u64>
        ensures there { IfSome result (λ p. contains p (pod_numbers self.now.admission.pods) ≡ true) }
        ensures first { IfSome result (λ p. first_of (pods_where (can_run self.now.admission.live) self.now.admission.pods) ≡ (if can_run_at self.now.admission p then Some p else None)) }
        ensures none { IfNone result (first_of (pods_where (can_run self.now.admission.live) self.now.admission.pods) ≡ None) }
    {
        match self.to_run {
            Touched::Nowhere => None,
            Touched::At(p) => Some(p),
            Touched::Anywhere => self.first_to_run(),
        }
    }

    #[inline(never)]
    fn first_to_run(&self) -> Option<u64>
        ensures { result ≡ first_of (pods_where (can_run self.now.admission.live) self.now.admission.pods) }
    {
        let pods = self.pods.as_slice();
        for pod in pods {
            if self.can_run(pod.number) {
                return Some(pod.number);
            }
        }
        None
    }

    /// The first draining pod without a request.
    fn pod_to_leave(&self) -> Option<u64>
        ensures { result ≡ first_of (pods_where (can_leave self.now.admission.live) self.now.admission.pods) }
    {
        match self.to_leave {
            Touched::Nowhere => None,
            Touched::At(p) => { if self.can_leave(p) { Some(p) } else { None } }
            Touched::Anywhere => self.first_to_leave(),
        }
    }

    fn first_to_leave(&self) -> Option<u64>
        ensures { result ≡ first_of (pods_where (can_leave self.now.admission.live) self.now.admission.pods) }
    {
        let pods = self.pods.as_slice();
        for pod in pods {
            if !is_draining(pod.readiness) {
                continue;
            }
            if self.can_leave(pod.number) {
                return Some(pod.number);
            }
        }
        None
    }

    /// Whether a queued request may run at a pod.
    pub(super) fn can_run(&self, p: u64) -> bool
        requires { contains p (pod_numbers self.now.admission.pods) ≡ true }
        ensures { result ≡ can_run_at self.now.admission p }
    {
        let load = self.seats.load(p);
        if load.queued == 0 {
            return false;
        }
        is_free(load.limit, load.running)
    }

    /// Whether a pod drains and no request is at it.
    fn can_leave(&self, p: u64) -> bool
        requires { contains p (pod_numbers self.now.admission.pods) ≡ true }
        ensures { result ≡ can_leave_at self.now.admission p }
    {
        if !self.pods.is_draining(p) {
            return false;
        }
        is_idle(self.seats.running(p), self.seats.queued(p))
    }
}

/// Whether a pod of this limit has a free seat.
fn is_free(limit: u64, running: u64) -> bool
    ensures { result ≡ (limit == 0 || nat_lt running limit) }
{
    limit == 0 || running < limit
}

/// Whether nobody is at a pod.
pub(super) fn is_idle(running: u64, queued: u64) -> bool
    ensures { result ≡ (running == 0 && queued == 0) }
{
    running == 0 && queued == 0
}
