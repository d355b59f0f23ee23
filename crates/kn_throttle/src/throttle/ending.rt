//! A request ends.
ghost use Rattle.std.specs.Prelude.{◌≡◌, ◌==◌, ◌+◌, ◌<◌, ℕ, Bool, true, [], ◌∷◌, ◌++◌, find, is_some, length, IfSome, IfNone, Some};
ghost use Rattle.kn_event.specs.declared.entry.Row.TheVariants as row;
ghost use Rattle.kn_event.specs.declared.event.Act.TheVariants as act;
ghost use Rattle.kn_event.specs.declared.revision.Spec.{Spec};
ghost use Rattle.kn_event.specs.Lists.{contains};
ghost use Rattle.kn_trace.specs.Trace.{Trace, entry, first_of, proxied, stand_of};
ghost use Rattle.kn_trace.specs.Events.{act_row, expiries};
ghost use Rattle.kn_record.specs.declared.admission.Request.{Request};
ghost use Rattle.kn_record.specs.Admission.{is_assigned_place, placed_in, runs_somewhere, waits, without};
ghost use Rattle.kn_record.specs.Made.{IsRecordOf};
ghost use Rattle.kn_record.specs.Views.{due_in, numbers_in, stand_in, stand_of_place};
ghost use Rattle.kn_record.specs.Walks.{BeginsWith};
ghost use Rattle.kn_table.specs.Moves.{Leaves};
ghost use Rattle.kn_throttle.specs.Breaker.{released};
ghost use Rattle.kn_throttle.specs.Kept.{AreKeptAfter, AreKeptBefore};

use super::Throttle;
use crate::candidates::Candidates;
use crate::touched::Touched;
use kn_breaker::Breaker;
use kn_record::append::{append_laws, order_laws, walk_laws};
use kn_record::{Place, Request};
use kn_seats::Seats;
use kn_table::Table;

impl Throttle {
    ghost use Rattle.kn_table.specs.Moves.{waits_or_runs};
    ghost use Rattle.kn_throttle.specs.Rows.{cancel_row, finish_row};
    ghost use Rattle.kn_throttle.specs.State.{place_in, with_row};

    /// Ends a running request, well or not. False where it isn't running, and then nothing changes.
    #[inline(always)]
    pub fn finish(&mut self, r: u64) -> bool
        ensures value { result ≡ contains r (placed_in runs_somewhere self.old.admission.live) }
        ensures after { (time : ℕ) (ok : Bool) → self.new ≡ with_row time (finish_row r ok result) self.old }
        ensures row { (s : Spec) (c : Trace) (ok : Bool) → IsRecordOf self.old.admission c → act_row s c (act.Finish r ok) ≡ Some (finish_row r ok result) }
        ensures stands { (c : Trace) (time : ℕ) (ok : Bool) → IsRecordOf self.old.admission c → IsRecordOf self.new.admission (c ++ entry time (finish_row r ok result) ∷ []) }
    {
        self.finish_at(r).is_some()
    }

    /// As `finish`, and answers where the request ran. None where it isn't running, and then nothing changes.
    #[inline(always)]
    pub fn finish_at(&mut self, r: u64) -> Option<Place>
        ensures value { is_some result ≡ contains r (placed_in runs_somewhere self.old.admission.live) }
        ensures place { IfSome result (λ x. place_in r self.old.admission.live ≡ Some x) }
        ensures after { (time : ℕ) (ok : Bool) → self.new ≡ with_row time (finish_row r ok (is_some result)) self.old }
        ensures row { (s : Spec) (c : Trace) (ok : Bool) → IsRecordOf self.old.admission c → act_row s c (act.Finish r ok) ≡ Some (finish_row r ok (is_some result)) }
        ensures stands { (c : Trace) (time : ℕ) (ok : Bool) → IsRecordOf self.old.admission c → IsRecordOf self.new.admission (c ++ entry time (finish_row r ok (is_some result)) ∷ []) }
        ensures stand { (c : Trace) → IsRecordOf self.old.admission c → IfSome result (λ x. stand_of c r ≡ stand_of_place x) }
        ensures proxied { (c : Trace) → IsRecordOf self.old.admission c → IfSome result (λ x. proxied c r ≡ is_assigned_place x) }
    {
        append_laws();
        self.end_where(r, false)
    }

    /// Gives up a request that is held or queued. False where it is neither, and then nothing changes.
    pub fn cancel(&mut self, r: u64) -> bool
        ensures value { result ≡ contains r (placed_in waits self.old.admission.live) }
        ensures after { (time : ℕ) → self.new ≡ with_row time (cancel_row r result) self.old }
        ensures row { (s : Spec) (c : Trace) → IsRecordOf self.old.admission c → act_row s c (act.Cancel r) ≡ Some (cancel_row r result) }
        ensures stands { (c : Trace) (time : ℕ) → IsRecordOf self.old.admission c → IsRecordOf self.new.admission (c ++ entry time (cancel_row r result) ∷ []) }
    {
        append_laws();
        self.end_where(r, true).is_some()
    }

    /// Ends the request of the least number that has waited for its whole timeout, and answers it. None where there is none,
    /// and then nothing changes.
    #[tactic(auto, unfolding(kn_record::specs::Admission::stepped))]
    pub fn expire_next(&mut self, time: u64) -> Option<u64>
        ensures value { result ≡ first_of (due_in self.old.spec.timeout_ms time self.old.admission.live) }
        ensures after { IfSome result (λ r. self.new ≡ with_row time (row.Expire r) self.old) }
        ensures unchanged { IfNone result (self.new ≡ self.old) }
        ensures stands { (c : Trace) → IsRecordOf self.old.admission c → IfSome result (λ r. BeginsWith (expiries self.old.spec time) time (row.Expire r) self.old.admission c) }
        ensures none { (c : Trace) → IsRecordOf self.old.admission c → IfNone result (expiries self.old.spec time c ≡ []) }
    {
        walk_laws();
        match self.table.first_due(self.spec.timeout_ms, time) {
            None => None,
            Some(r) => {
                self.end(r, false);
                Some(r)
            }
        }
    }

    /// Ends a request that waits, or one that runs, and answers where it was. None where it is not live, or not so.
    #[inline(always)]
    fn end_where(&mut self, r: u64, waiting: bool) -> Option<Place>
        ensures value { is_some result ≡ contains r (placed_in (waits_or_runs waiting) self.old.admission.live) }
        ensures place { IfSome result (λ x. place_in r self.old.admission.live ≡ Some x) }
        ensures stand { IfSome result (λ x. stand_in self.old.admission r ≡ stand_of_place x) }
        ensures proxied { IfSome result (λ x. contains r (placed_in is_assigned_place self.old.admission.live) ≡ is_assigned_place x) }
        ensures ended { IfSome result (λ x. self.new ≡ record self.old { admission = record self.old.admission { live = without r self.old.admission.live } }) }
        ensures kept { IfNone result (self.new ≡ self.old) }
    {
        order_laws();
        let request = self.table.remove_where(r, waiting)?;
        free(
            &mut self.breaker,
            &mut self.seats,
            &mut self.candidates,
            &mut self.to_run,
            &mut self.to_leave,
            r,
            request.place,
        );
        Some(request.place)
    }

    /// Ends a live request, lost with its pod or not.
    #[inline(always)]
    pub(super) fn end(&mut self, r: u64, is_lost: bool)
        requires { contains r (numbers_in self.old.admission.live) ≡ true }
        ensures { self.new ≡ record self.old { admission = record self.old.admission { live = without r self.old.admission.live } } }
    {
        order_laws();
        let request = take_out(&mut self.table, r, is_lost);
        free(
            &mut self.breaker,
            &mut self.seats,
            &mut self.candidates,
            &mut self.to_run,
            &mut self.to_leave,
            r,
            request.place,
        );
    }
}

/// A request has left this place: what it took there is free.
#[inline(always)]
fn free(
    breaker: &mut Breaker,
    seats: &mut Seats,
    candidates: &mut Candidates,
    to_run: &mut Touched,
    to_leave: &mut Touched,
    r: u64,
    place: Place,
)
    requires { AreKeptBefore r place breaker.old seats.old candidates.old to_run.old to_leave.old }
    ensures { (z : AreKeptBefore r place breaker.old seats.old candidates.old to_run.old to_leave.old) → AreKeptAfter z breaker.new seats.new candidates.new to_run.new to_leave.new }
{
    match place {
        Place::Held => breaker.leave(),
        Place::Queued(p) => {
            seats.unlink(p, r);
            *to_leave = to_leave.with(p);
        }
        Place::Running(p, assigned) => {
            release(breaker, assigned);
            let freed = seats.give_back(p);
            candidates.end(p);
            to_run.add_if(p, freed.next);
            to_leave.add_if(p, freed.draining);
        }
    }
}

/// Takes a request out of the table; one that is lost so that the next at its pod is found from there on.
#[inline(always)]
fn take_out(table: &mut Table, r: u64, is_lost: bool) -> Request
    requires { contains r (numbers_in table.old) ≡ true }
    ensures removed { table.new ≡ without r table.old }
    ensures request { find (λ (q : Request). q.number == r) table.old ≡ Some result }
    ensures leaves { Leaves r result.place table.old table.new }
    ensures len { length table.new + 1 ≡ length table.old }
{
    if is_lost {
        table.lose(r)
    } else {
        table.remove(r)
    }
}

/// A running request ends. One that was assigned gives its slot back.
#[inline]
fn release(breaker: &mut Breaker, assigned: bool)
    requires { assigned ≡ true → 0 < breaker.old.running }
    ensures { breaker.new ≡ released assigned breaker.old }
{
    if assigned {
        breaker.release();
    }
}
