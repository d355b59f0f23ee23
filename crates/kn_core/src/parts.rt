//! The parts of a revision, and what each part of an event changes of them.
ghost use Rattle.std.specs.Prelude.{◌≡◌, ℕ, ◌+◌, ◌≤◌, ◌^◌, ◌++◌, ◌∷◌, [], true, length};
ghost use Rattle.kn_event.specs.Revision.{AreInRange};
ghost use Rattle.kn_event.specs.declared.revision.Spec.{Spec as SpecValue};
ghost use Rattle.kn_event.specs.Lists.{contains};
ghost use Rattle.kn_trace.specs.Events.{expiries, losses};
ghost use Rattle.kn_trace.specs.Scale.{scale_rows};
ghost use Rattle.kn_trace.specs.Settling.{settling};
ghost use Rattle.kn_trace.specs.Trace.{Trace, entry};
ghost use Rattle.kn_record.specs.Admission.{is_at, placed_in};
ghost use Rattle.kn_record.specs.Views.{pod_numbers};
ghost use Rattle.kn_record.specs.Walks.{losing};
ghost use Rattle.kn_core.specs.Changes.{AddsNobody, AddsProper, AddsRows, CanEndRequests, CanScale, EndsOnly, HasFewPods, IsAlone, IsReadyFor, OnlyEnds, OnlyScales};
ghost use Rattle.kn_core.specs.Scaling.{HearsRow};
ghost use Rattle.kn_core.specs.State.{ArePartsOf, ArePartsOfSome, IsMeasuredAt, IsMeasuredBy};

mod acts;
mod event;
mod gauges;
mod opening;
mod scale;
mod usual;
mod views;

use crate::rows::{follow_behind, remove_behind};
use crate::scaling;
use kn_event::{Act, Entry, EntryLog, Row};
use kn_pods::Pods;
use kn_pods::laws::row_laws;
use kn_record::append::{append_laws, time_laws, walk_laws};
use kn_scaler::Scaler;
use kn_scaler::laws::{kind_laws, quiet_laws};
use kn_sizes::sizes::size_laws;
use kn_throttle::Throttle;
use std::marker::Model;

/// The throttler and the pods of a revision, and the autoscaler of one that scales. Contracts say for which traces all
/// stand; each part of an event adds its rows to the log, and leaves the parts standing for the trace with them.
pub(crate) struct Parts {
    throttle: Throttle,
    pods: Pods,
    scaler: Option<Scaler>,
}

impl Drop for Parts {
    fn drop(self) {
        let Parts {
            throttle: _,
            pods: _,
            scaler: _,
        } = self;
    }
}

impl Model for Parts {
    ghost use Rattle.kn_core.specs.State.{PartsState};

    ghost Value = { PartsState };

    ghost view = { λ x. record { throttle = x.throttle; pods = x.pods; scaler = x.scaler } };
}

impl Parts {
    /// Before an event, the seconds that are over count.
    #[inline(always)]
    fn advance(&mut self, time: u64)
        requires some { ArePartsOfSome self.old }
        requires order { IsMeasuredBy time self.old.scaler }
        requires range { time ≤ 2 ^ 42 }
        ensures stands { (s : SpecValue) (c : Trace) → ArePartsOf s self.old c → ArePartsOf s self.new c }
        ensures throttle { self.new.throttle ≡ self.old.throttle }
        ensures pods { self.new.pods ≡ self.old.pods }
        ensures measured { IsMeasuredAt time self.new.scaler }
    {
        let ready = self.pods.count_ready();
        scaling::advance(&mut self.scaler, time, ready > 0);
    }

    /// What a row changes of what is measured. Where a request ends with it, that is `r`, which still stands.
    #[inline(always)]
    fn measure(&mut self, row: Row, r: u64)
        requires some { IsReadyFor (λ s c. entry 0 row ∷ []) self.old }
        requires ends { EndsOnly row r }
        requires few { HasFewPods self.old }
        ensures scaler { HearsRow row self.old self.new.scaler }
        ensures throttle { self.new.throttle ≡ self.old.throttle }
        ensures pods { self.new.pods ≡ self.old.pods }
        ensures measured { (t : ℕ) → IsMeasuredAt t self.old.scaler → IsMeasuredAt t self.new.scaler }
    {
        append_laws();
        let stand = self.throttle.stand(r);
        let proxied = self.throttle.proxied(r);
        scaling::row(&mut self.scaler, row, stand, proxied);
    }

    /// First, each request that has waited for its whole timeout expires.
    #[inline(always)]
    fn expire(&mut self, time: u64, log: &mut EntryLog)
        requires some { IsReadyFor (λ s c. expiries s time c) self.old }
        requires can { CanEndRequests time self.old log.old }
        ensures adds { AddsProper (λ s c. expiries s time c) self.old self.new log.old log.new }
        ensures ends { OnlyEnds time self.old self.new log.old log.new }
    {
        row_laws();
        time_laws();
        walk_laws();
        while let Some(r) = self.throttle.due(time) {
            let row = Row::Expire(r);
            self.measure(row, r);
            let _ = self.throttle.expire_next(time);
            log.put(Entry { time, row });
        }
    }

    /// Then, where a live pod is lost, its requests end.
    #[inline(always)]
    fn lose(&mut self, act: Act, time: u64, log: &mut EntryLog)
        requires some { IsReadyFor (λ s c. losses time c act) self.old }
        requires can { CanEndRequests time self.old log.old }
        ensures adds { AddsProper (λ s c. losses time c act) self.old self.new log.old log.new }
        ensures ends { OnlyEnds time self.old self.new log.old log.new }
        ensures alone { IsAlone self.new.throttle.admission act }
    {
        append_laws();
        walk_laws();
        let Act::Lost(p) = act else {
            return;
        };
        if self.pods.live(p) {
            self.lose_all(p, time, log);
        }
    }

    /// Ends each request that is at a live pod.
    #[inline(never)]
    fn lose_all(&mut self, p: u64, time: u64, log: &mut EntryLog)
        requires some { IsReadyFor (λ s c. losing time p c) self.old }
        requires there { contains p (pod_numbers self.old.throttle.admission.pods) ≡ true }
        requires can { CanEndRequests time self.old log.old }
        ensures adds { AddsProper (λ s c. losing time p c) self.old self.new log.old log.new }
        ensures ends { OnlyEnds time self.old self.new log.old log.new }
        ensures none { placed_in (is_at p) self.new.throttle.admission.live ≡ [] }
    {
        row_laws();
        time_laws();
        walk_laws();
        while let Some(r) = self.throttle.first_at(p) {
            let row = Row::LostRequest(r);
            self.measure(row, r);
            self.throttle.lose(r);
            log.put(Entry { time, row });
        }
    }

    /// As many pods as are wanted, of this limit.
    fn scale(&mut self, want: u64, limit: u64, time: u64, log: &mut EntryLog)
        requires some { ∥ ((c : Trace) × AreInRange self.old.throttle.spec × ArePartsOf self.old.throttle.spec self.old c) ∥₁ }
        requires want { want ≤ 500 }
        requires can { CanScale limit time self.old }
        requires room { length log.old ≤ 65036 }
        ensures adds { AddsRows (λ s c. scale_rows s time c want) self.old self.new log.old log.new }
        ensures scales { OnlyScales time 500 self.old self.new log.old log.new }
        ensures scaler { self.new.scaler ≡ self.old.scaler }
    {
        row_laws();
        append_laws();
        time_laws();
        walk_laws();
        kind_laws();
        quiet_laws();
        size_laws();
        let before = log.entries().len();
        self.pods.apply(want, limit, time, log);
        follow_behind(&mut self.throttle, log, before);
    }

    /// At last, what follows without a further act.
    #[inline(always)]
    fn settle(&mut self, time: u64, log: &mut EntryLog)
        requires some { IsReadyFor (λ s c. settling s time c) self.old }
        requires few { HasFewPods self.old }
        requires measured { IsMeasuredAt time self.old.scaler }
        requires room { length log.old ≤ 20600 }
        ensures logged { (s : SpecValue) (c : Trace) → ArePartsOf s self.old c → log.new ≡ log.old ++ settling s time c }
        ensures adds { AddsProper (λ s c. settling s time c) self.old self.new log.old log.new }
        ensures nobody { AddsNobody time self.old.throttle self.new.throttle }
        ensures created { self.new.pods.created ≡ self.old.pods.created }
        ensures measured { IsMeasuredAt time self.new.scaler }
        ensures few { length log.new ≤ length log.old + 40500 }
    {
        row_laws();
        append_laws();
        kind_laws();
        let before = log.entries().len();
        self.throttle.settle(time, log);
        remove_behind(&mut self.pods, log, before);
        scaling::rows_behind(&mut self.scaler, log, before);
    }
}
