//! An act's own row.
ghost use Rattle.std.specs.Prelude.{◌≡◌, ℕ, ◌<◌, ◌≤◌, ◌^◌, ◌∷◌, [], ◌++◌, length, All, Some, IfSome, IfNone};
ghost use Rattle.kn_event.specs.declared.event.Act.TheVariants as act;
ghost use Rattle.kn_event.specs.declared.revision.Spec.{Spec as SpecValue};
ghost use Rattle.kn_trace.specs.Events.{act_row, entries_of};
ghost use Rattle.kn_trace.specs.Trace.{Trace, entry};
ghost use Rattle.kn_record.specs.declared.admission.Request.{Request};
ghost use Rattle.kn_throttle.specs.Rows.{arrival_row, cancel_row, finish_row};
ghost use Rattle.kn_core.specs.Changes.{AddsRow, IsAlone};
ghost use Rattle.kn_core.specs.Firsts.{own_row};
ghost use Rattle.kn_core.specs.State.{ArePartsOf, ArePartsOfSome};
ghost use Rattle.kn_core.specs.Steps.{IsWithinRange};

use super::Parts;
use crate::first::OwnRow;
use crate::scaling;
use kn_event::{Act, Entry, EntryLog, Event, Row};
use kn_pods::PodAnswer;
use kn_pods::laws::row_laws;
use kn_record::append::append_laws;
use kn_throttle::Arrival;

impl Parts {
    /// A request arrives.
    #[inline(always)]
    pub(super) fn arrive(&mut self, time: u64, tag: u64) -> OwnRow
        requires few { self.old.throttle.admission.arrivals < 2 ^ 54 }
        requires order { All (λ (q : Request). q.time ≤ time) self.old.throttle.admission.live }
        ensures row { (s : SpecValue) (c : Trace) → ArePartsOf s self.old c → act_row s c (act.Arrive tag) ≡ Some (own_row result) }
        ensures adds { AddsRow time (own_row result) self.old self.new }
    {
        let r = self.throttle.arrivals();
        let mode = scaling::mode(&self.scaler);
        let answer = self.throttle.arrive(r, time, mode);
        own_of_arrival(r, tag, answer)
    }

    /// A request ends, well or not, if it runs.
    #[inline(always)]
    fn finish(&mut self, r: u64, ok: bool) -> OwnRow
        ensures row { (s : SpecValue) (c : Trace) → ArePartsOf s self.old c → act_row s c (act.Finish r ok) ≡ Some (own_row result) }
        ensures adds { (t : ℕ) → AddsRow t (own_row result) self.old self.new }
    {
        let ran = self.throttle.finish(r);
        own_of_finish(r, ok, ran)
    }

    /// A request is given up, if it waits.
    #[inline(always)]
    fn cancel(&mut self, r: u64) -> Row
        ensures row { (s : SpecValue) (c : Trace) → ArePartsOf s self.old c → act_row s c (act.Cancel r) ≡ Some result }
        ensures adds { (t : ℕ) → AddsRow t result self.old self.new }
    {
        let waited = self.throttle.cancel(r);
        row_of_cancel(r, waited)
    }

    /// A pod is said to be Ready.
    #[tactic(auto, unfolding(kn_record::specs::Admission::stepped))]
    fn ready(&mut self, p: u64) -> Row
        requires { ArePartsOfSome self.old }
        ensures row { (s : SpecValue) (c : Trace) → ArePartsOf s self.old c → act_row s c (act.Ready p) ≡ Some result }
        ensures adds { (t : ℕ) → AddsRow t result self.old self.new }
    {
        append_laws();
        match self.pods.ready(p) {
            PodAnswer::Done => {
                self.throttle.pod_ready(p);
                Row::Ready(p)
            }
            PodAnswer::NotStarting => Row::NotStarting(p),
            PodAnswer::NoPod => Row::NoPod(p),
        }
    }

    /// A pod has another limit, if it is live.
    #[tactic(auto, unfolding(kn_record::specs::Admission::stepped))]
    fn limit(&mut self, p: u64, n: u64) -> Row
        requires some { ArePartsOfSome self.old }
        requires limit { n ≤ 1000 }
        ensures row { (s : SpecValue) (c : Trace) → ArePartsOf s self.old c → act_row s c (act.Limit p n) ≡ Some result }
        ensures adds { (t : ℕ) → AddsRow t result self.old self.new }
    {
        append_laws();
        if self.pods.live(p) {
            self.throttle.set_limit(p, n);
            Row::Limit(p, n)
        } else {
            Row::NoPod(p)
        }
    }

    /// A pod has vanished, if it was live; its requests have ended.
    #[tactic(auto, unfolding(kn_record::specs::Admission::stepped))]
    fn lose_pod(&mut self, p: u64) -> Row
        requires some { ArePartsOfSome self.old }
        requires alone { IsAlone self.old.throttle.admission (act.Lost p) }
        ensures row { (s : SpecValue) (c : Trace) → ArePartsOf s self.old c → act_row s c (act.Lost p) ≡ Some result }
        ensures adds { (t : ℕ) → AddsRow t result self.old self.new }
    {
        append_laws();
        row_laws();
        if self.pods.lost(p) {
            self.throttle.lose_pod(p);
            Row::LostPod(p)
        } else {
            Row::NoPod(p)
        }
    }

    /// The row of the act, if it has one.
    #[inline(always)]
    pub(super) fn act(&mut self, e: &Event, log: &mut EntryLog) -> Option<Row>
        requires room { length log.old < 65536 }
        requires some { ArePartsOfSome self.old }
        requires few { self.old.throttle.admission.arrivals < 2 ^ 54 }
        requires order { All (λ (q : Request). q.time ≤ e.now.time) self.old.throttle.admission.live }
        requires range { IsWithinRange e.now.act }
        requires alone { IsAlone self.old.throttle.admission e.now.act }
        ensures row { (s : SpecValue) (c : Trace) → ArePartsOf s self.old c → act_row s c e.now.act ≡ result }
        ensures adds { IfSome result (λ x. AddsRow e.now.time x self.old self.new) }
        ensures unchanged { IfNone result (self.new ≡ self.old) }
        ensures logged { log.new ≡ log.old ++ entries_of e.now.time result }
    {
        match e.act {
            Act::Arrive(tag) => said(self.arrive(e.time, tag).row(), e.time, log),
            Act::Finish(r, ok) => said(self.finish(r, ok).row(), e.time, log),
            Act::Cancel(r) => said(self.cancel(r), e.time, log),
            Act::Ready(p) => said(self.ready(p), e.time, log),
            Act::Limit(p, n) => said(self.limit(p, n), e.time, log),
            Act::Lost(p) => said(self.lose_pod(p), e.time, log),
            Act::Pass | Act::Tick => None,
        }
    }
}

/// The row, which the log has too. Each act puts its own, whose kind is known there: a row is large to hand on.
fn said(row: Row, time: u64, log: &mut EntryLog) -> Option<Row>
    requires { length log.old < 65536 }
    ensures row { result ≡ Some row }
    ensures logged { log.new ≡ log.old ++ entry time row ∷ [] }
{
    log.put(Entry { time, row });
    Some(row)
}

fn own_of_arrival(r: u64, tag: u64, answer: Arrival) -> OwnRow
    ensures { own_row result ≡ arrival_row r tag answer }
{
    match answer {
        Arrival::Overload => OwnRow::Overload(r),
        Arrival::QueueFull(None) => OwnRow::QueueFull(r),
        Arrival::QueueFull(Some(p)) => OwnRow::PodFull(r, p),
        Arrival::Direct(p) => OwnRow::Direct(r, p),
        Arrival::Admit => OwnRow::Admit(r, tag),
    }
}

fn own_of_finish(r: u64, ok: bool, ran: bool) -> OwnRow
    ensures { own_row result ≡ finish_row r ok ran }
{
    if ran {
        OwnRow::Finish(r, ok)
    } else {
        OwnRow::NotRunning(r)
    }
}

fn row_of_cancel(r: u64, waited: bool) -> Row
    ensures { result ≡ cancel_row r waited }
{
    if waited {
        Row::Cancel(r)
    } else {
        Row::NotWaiting(r)
    }
}
