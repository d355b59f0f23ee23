//! What follows without a further act, a row at a time, as far as requests are dispatched.
ghost use Rattle.std.specs.Prelude.{◌≡◌, ℕ, true, false, [], IfSome, IfNone};
ghost use Rattle.kn_event.specs.declared.entry.Row.TheVariants as row;
ghost use Rattle.kn_trace.specs.Trace.{Trace};
ghost use Rattle.kn_trace.specs.Settling.{held_assignments, removals, settling};
ghost use Rattle.kn_record.specs.Made.{IsRecordOf};
ghost use Rattle.kn_record.specs.Views.{pod_numbers};
ghost use Rattle.kn_record.specs.Walks.{promoting};
ghost use Rattle.kn_throttle.specs.Rows.{dispatch_row};
ghost use Rattle.kn_throttle.specs.Settling.{Begins, IsCalm};

use super::Throttle;
use crate::touched::Touched;
use kn_policy::choice_laws;
use kn_record::append::{append_laws, walk_laws};

/// How a request that waits is dispatched.
#[derive(Clone, Copy)]
pub enum Dispatch {
    /// A queued request begins to run at its pod.
    Run(u64),
    /// A held request is assigned to a pod.
    Assign(u64, u64),
}

impl Throttle {
    ghost use Rattle.kn_throttle.specs.State.{with_row};

    /// Dispatches the next request that waits, and answers how: with that row begins what follows from the entries so far. None
    /// where no request may be dispatched, and then nothing changes: only pods may still be removed.
    #[inline(always)]
    pub fn dispatch_next(&mut self) -> Option<Dispatch>
        ensures begins { Begins (settling self.old.spec) dispatch_row self.old.admission result }
        ensures after { (time : ℕ) → IfSome result (λ d. self.new ≡ with_row time (dispatch_row d) self.old) }
        ensures unchanged { IfNone result (self.new ≡ self.old) }
        ensures ends { (c : Trace) (time : ℕ) → IsRecordOf self.old.admission c → IfNone result (settling self.old.spec time c ≡ removals time c) }
    {
        append_laws();
        if let Some(r) = self.run_if_any() {
            return Some(Dispatch::Run(r));
        }
        match self.assign_next() {
            Some((r, p)) => Some(Dispatch::Assign(r, p)),
            None => None,
        }
    }

    /// Whether nothing follows from the entries so far. False says nothing.
    #[inline]
    pub fn is_settled(&self) -> bool
        ensures { (c : Trace) (time : ℕ) → IsRecordOf self.now.admission c → result ≡ true → settling self.now.spec time c ≡ [] }
    {
        append_laws();
        if !self.is_calm() {
            return false;
        }
        if !self.is_complete() {
            return false;
        }
        !self.has_next_held()
    }

    /// Lets the next queued request run, and answers it. None where none may.
    #[inline(always)]
    fn run_if_any(&mut self) -> Option<u64>
        ensures after { (time : ℕ) → IfSome result (λ r. self.new ≡ with_row time (row.Run r) self.old) }
        ensures unchanged { IfNone result (self.new ≡ self.old) }
        ensures begins { Begins (λ time. promoting time (pod_numbers self.old.admission.pods)) row.Run self.old.admission result }
        ensures calm { IfNone result (IsCalm self.old.admission) }
    {
        if self.is_calm() {
            return None;
        }
        let ran = self.run_next();
        self.calm_down();
        ran
    }

    /// Forgets the one pod that was touched, where no queued request may run there.
    #[inline]
    fn calm_down(&mut self)
        ensures { self.new ≡ self.old }
    {
        if let Touched::At(p) = self.to_run {
            if !self.can_run(p) {
                self.to_run = Touched::Nowhere;
            }
        }
    }

    /// Whether no pod was touched at which a queued request may run. False says nothing.
    #[inline]
    fn is_calm(&self) -> bool
        ensures { result ≡ true → IsCalm self.now.admission }
    {
        walk_laws();
        match self.to_run {
            Touched::Nowhere => true,
            _ => false,
        }
    }

    /// Whether no pod was touched that may leave. False says nothing.
    #[inline(always)]
    fn is_complete(&self) -> bool
        ensures { (c : Trace) (time : ℕ) → IsRecordOf self.now.admission c → result ≡ true → removals time c ≡ [] }
    {
        walk_laws();
        match self.to_leave {
            Touched::Nowhere => true,
            _ => false,
        }
    }

    /// Whether the next held request may be assigned: one is held, a pod has a free seat, and the capacity is not used up.
    /// The contract speaks of false alone, after which nothing is assigned.
    #[inline(always)]
    fn has_next_held(&self) -> bool
        ensures { (c : Trace) (time : ℕ) → IsRecordOf self.now.admission c → result ≡ false → held_assignments self.now.spec time c ≡ [] }
    {
        walk_laws();
        choice_laws();
        match self.table.first_held() {
            None => false,
            Some(_) => self.candidates.has_free_seat() && !self.breaker.is_used_up(),
        }
    }
}
