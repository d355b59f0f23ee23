//! An arrival or a finish at which nobody's time is over. The rows that it begins with are answered as numbers: a row is large to
//! put into the log.
ghost use Rattle.std.specs.Prelude.{◌≡◌, ◌+◌, ◌<◌, ◌≤◌, ◌^◌, [], ◌∷◌, ◌++◌, length, Some, true, false};
ghost use Rattle.kn_event.specs.Revision.{AreInRange};
ghost use Rattle.kn_event.specs.declared.revision.Spec.{Spec as SpecValue};
ghost use Rattle.kn_trace.specs.Events.{act_row, entries_of, react};
ghost use Rattle.kn_trace.specs.Laws.{IsSettled};
ghost use Rattle.kn_trace.specs.Settling.{settling};
ghost use Rattle.kn_trace.specs.Trace.{Trace, entry};
ghost use Rattle.kn_record.specs.Admission.{is_assigned_place};
ghost use Rattle.kn_record.specs.Order.{AreTimed};
ghost use Rattle.kn_record.specs.Views.{stand_of_place};
ghost use Rattle.kn_core.specs.Changes.{AddsNobody, AddsOwn, AddsProper, AddsWhere, CanReact, CanScale, HasFewPods, IsInOrderAt, IsReadyFor, OnlyScales, is_admitted, is_own_of};
ghost use Rattle.kn_core.specs.Dispatched.{AddsFirst};
ghost use Rattle.kn_core.specs.declared.first.FirstRows.TheVariants as first;
ghost use Rattle.kn_core.specs.Firsts.{IsUsual, dispatched, first_rows, is_usual_act, own_row};
ghost use Rattle.kn_core.specs.Ruled.{decided_rows};
ghost use Rattle.kn_core.specs.State.{ArePartsOf, IsMeasuredAt};
ghost use Rattle.kn_core.specs.Steps.{IsWithinRange};

use super::Parts;
use crate::first::{FirstRows, OwnRow};
use crate::scaling;
use kn_event::{Act, EntryLog, Event, Row, Stand, Told};
use kn_laws::parts::part_laws;
use kn_pods::laws::row_laws;
use kn_record::Place;
use kn_record::append::{append_laws, time_laws, walk_laws};
use kn_record::facts::fact_laws;
use kn_scaler::laws::kind_laws;
use kn_sizes::sizes::{entry_laws, size_laws};
use kn_throttle::Dispatch;

impl Parts {
    /// Whether an event is an arrival or a finish at which nobody's time is over.
    #[inline]
    fn is_usual(&self, e: &Event) -> bool
        ensures { result ≡ true → IsUsual e.now self.now.throttle }
    {
        is_usual_act(e.act) && self.throttle.due(e.time).is_none()
    }

    /// The act's own row, and what it changes. The autoscaler is told of each kind apart, where it is known which row that is.
    /// Where a request stood that has finished, its end has answered: it isn't looked up once more.
    #[inline(always)]
    fn take_usual(&mut self, e: &Event) -> OwnRow
        requires act { is_usual_act e.now.act ≡ true }
        requires some { IsReadyFor (λ s c. entries_of e.now.time (act_row s c e.now.act)) self.old }
        requires arrivals { self.old.throttle.admission.arrivals < 2 ^ 54 }
        requires order { IsInOrderAt e.now.time self.old }
        ensures row { (s : SpecValue) (c : Trace) → ArePartsOf s self.old c → act_row s c e.now.act ≡ Some (own_row result) }
        ensures adds { AddsOwn e.now.time (Some (own_row result)) self.old self.new [] (entry e.now.time (own_row result) ∷ []) }
        ensures order { IsInOrderAt e.now.time self.new }
        ensures spec { self.new.throttle.spec ≡ self.old.throttle.spec }
        ensures created { self.new.pods.created ≡ self.old.pods.created }
    {
        row_laws();
        append_laws();
        time_laws();
        part_laws();
        match e.act {
            Act::Arrive(tag) => {
                let own = self.arrive(e.time, tag);
                scaling::own(&mut self.scaler, own, Stand::Held, false);
                own
            }
            Act::Finish(r, ok) => match self.throttle.finish_at(r) {
                Some(place) => {
                    let (stand, through) = stood(place);
                    scaling::row(&mut self.scaler, Row::Finish(r, ok), stand, through);
                    OwnRow::Finish(r, ok)
                }
                None => {
                    scaling::row(&mut self.scaler, Row::NotRunning(r), Stand::Held, false);
                    OwnRow::NotRunning(r)
                }
            },
            _ => unreachable!(),
        }
    }

    /// The first row of a settling with which a request is dispatched.
    #[inline(always)]
    fn dispatch(&mut self, time: u64) -> Option<Dispatch>
        requires some { IsReadyFor (λ s c. settling s time c) self.old }
        requires few { HasFewPods self.old }
        requires measured { IsMeasuredAt time self.old.scaler }
        ensures stands { AddsFirst time result self.old self.new }
        ensures few { HasFewPods self.new }
        ensures nobody { AddsNobody time self.old.throttle self.new.throttle }
        ensures pods { self.new.pods ≡ self.old.pods }
        ensures measured { IsMeasuredAt time self.new.scaler }
    {
        row_laws();
        append_laws();
        time_laws();
        let next = self.throttle.dispatch_next();
        if let Some(dispatch) = next {
            scaling::dispatched(&mut self.scaler, dispatch);
        }
        next
    }

    /// What is left of a settling.
    #[inline]
    fn settle_rest(&mut self, time: u64, log: &mut EntryLog)
        requires some { IsReadyFor (λ s c. settling s time c) self.old }
        requires few { HasFewPods self.old }
        requires measured { IsMeasuredAt time self.old.scaler }
        requires room { length log.old ≤ 20600 }
        ensures adds { AddsProper (λ s c. settling s time c) self.old self.new log.old log.new }
        ensures nobody { AddsNobody time self.old.throttle self.new.throttle }
        ensures created { self.new.pods.created ≡ self.old.pods.created }
        ensures measured { IsMeasuredAt time self.new.scaler }
    {
        if !self.throttle.is_settled() {
            self.settle_all(time, log);
        }
    }

    /// As `settle`.
    // (its code stands once: it is not often that more than a dispatch follows)
    #[inline(never)]
    fn settle_all(&mut self, time: u64, log: &mut EntryLog)
        requires some { IsReadyFor (λ s c. settling s time c) self.old }
        requires few { HasFewPods self.old }
        requires measured { IsMeasuredAt time self.old.scaler }
        requires room { length log.old ≤ 20600 }
        ensures adds { AddsProper (λ s c. settling s time c) self.old self.new log.old log.new }
        ensures nobody { AddsNobody time self.old.throttle self.new.throttle }
        ensures created { self.new.pods.created ≡ self.old.pods.created }
        ensures measured { IsMeasuredAt time self.new.scaler }
    {
        self.settle(time, log);
    }

    /// At last, what follows without a further act. The first of its rows is answered where the log is empty and a request is
    /// dispatched with it.
    #[inline(always)]
    fn settle_first(&mut self, time: u64, log: &mut EntryLog) -> Option<Dispatch>
        requires some { IsReadyFor (λ s c. settling s time c) self.old }
        requires few { HasFewPods self.old }
        requires measured { IsMeasuredAt time self.old.scaler }
        requires room { length log.old ≤ 20600 }
        ensures adds { AddsProper (λ s c. settling s time c) self.old self.new log.old (dispatched time result ++ log.new) }
        ensures nobody { AddsNobody time self.old.throttle self.new.throttle }
        ensures created { self.new.pods.created ≡ self.old.pods.created }
        ensures measured { IsMeasuredAt time self.new.scaler }
    {
        if !log.entries().is_empty() {
            self.settle_all(time, log);
            return None;
        }
        let next = self.dispatch(time);
        self.settle_rest(time, log);
        next
    }

    /// The decision of an arrival with this row, where no pod is wanted.
    #[inline(always)]
    fn decide_usual(&mut self, e: &Event, own: OwnRow, limit: u64, log: &mut EntryLog)
        requires some { IsReadyFor (decided_rows e.now.time e.now.act (Some (own_row own))) self.old }
        requires own { is_own_of e.now.act (Some (own_row own)) ≡ true }
        requires ranges { AreInRange self.old.throttle.spec }
        requires can { CanScale limit e.now.time self.old }
        requires room { length log.old ≤ 65033 }
        ensures adds { AddsProper (decided_rows e.now.time e.now.act (Some (own_row own))) self.old self.new log.old log.new }
        ensures scales { OnlyScales e.now.time 503 self.old self.new log.old log.new }
        ensures measured { IsMeasuredAt e.now.time self.new.scaler }
    {
        if is_admission(own) && scaling::wants_none(&self.scaler) {
            self.wake(limit, e.time, log);
        }
    }

    /// A usual event: its rows are those that are answered, and then those of the log.
    #[inline(always)]
    fn react_usual(&mut self, e: &Event, limit: u64, log: &mut EntryLog) -> FirstRows
        requires usual { IsUsual e.now self.old.throttle }
        requires empty { log.old ≡ [] }
        requires can { CanReact limit e.now.time self.old }
        requires times { e.now.time ≤ 2 ^ 42 }
        ensures adds { AddsWhere IsSettled (λ s c. react s c e.now) self.old self.new [] (first_rows e.now.time result ++ log.new) }
        ensures spec { self.new.throttle.spec ≡ self.old.throttle.spec }
        ensures timed { AreTimed e.now.time self.new.throttle.admission }
        ensures created { self.new.pods.created ≤ self.old.pods.created + 500 }
        ensures measured { IsMeasuredAt e.now.time self.new.scaler }
    {
        append_laws();
        walk_laws();
        fact_laws();
        part_laws();
        row_laws();
        kind_laws();
        size_laws();
        entry_laws();
        self.advance(e.time);
        let own = self.take_usual(e);
        self.decide_usual(e, own, limit, log);
        match self.settle_first(e.time, log) {
            None => FirstRows::Own(own),
            Some(dispatch) => FirstRows::Both(own, dispatch),
        }
    }

    /// One event: its rows are those that are answered, and then those of the log, which has all where none is to be answered.
    #[inline(always)]
    pub(crate) fn react_first(
        &mut self,
        e: &Event,
        answers: bool,
        limit: u64,
        log: &mut EntryLog,
    ) -> FirstRows
        requires empty { log.old ≡ [] }
        requires can { CanReact limit e.now.time self.old }
        requires times { e.now.time ≤ 2 ^ 42 }
        requires range { IsWithinRange e.now.act }
        ensures adds { AddsWhere IsSettled (λ s c. react s c e.now) self.old self.new [] (first_rows e.now.time result ++ log.new) }
        ensures spec { self.new.throttle.spec ≡ self.old.throttle.spec }
        ensures timed { AreTimed e.now.time self.new.throttle.admission }
        ensures created { self.new.pods.created ≤ self.old.pods.created + 500 }
        ensures measured { IsMeasuredAt e.now.time self.new.scaler }
        ensures none { answers ≡ false → result ≡ first.Nothing }
    {
        if answers && self.is_usual(e) {
            return self.react_usual(e, limit, log);
        }
        // (a copy, so that the event itself needs no memory on the usual way)
        let copy = *e;
        self.react_all(&copy, limit, log);
        FirstRows::Nothing
    }

    /// As `react`, and answers nothing.
    #[inline(never)]
    fn react_all(&mut self, e: &Event, limit: u64, log: &mut EntryLog)
        requires empty { log.old ≡ [] }
        requires can { CanReact limit e.now.time self.old }
        requires times { e.now.time ≤ 2 ^ 42 }
        requires range { IsWithinRange e.now.act }
        ensures adds { AddsWhere IsSettled (λ s c. react s c e.now) self.old self.new [] log.new }
        ensures spec { self.new.throttle.spec ≡ self.old.throttle.spec }
        ensures timed { AreTimed e.now.time self.new.throttle.admission }
        ensures created { self.new.pods.created ≤ self.old.pods.created + 500 }
        ensures measured { IsMeasuredAt e.now.time self.new.scaler }
    {
        let mut told = Told::Passed;
        self.react(e, limit, log, &mut told);
    }
}

fn is_usual_act(act: Act) -> bool
    ensures { result ≡ is_usual_act act }
{
    matches!(act, Act::Arrive(_) | Act::Finish(_, _))
}

/// Where a request stood, and whether the activator handed it to its pod.
#[inline(always)]
fn stood(place: Place) -> (Stand, bool)
    ensures stand { result.0 ≡ stand_of_place place }
    ensures proxied { result.1 ≡ is_assigned_place place }
{
    match place {
        Place::Held => (Stand::Held, false),
        Place::Queued(p) => (Stand::Queued(p), false),
        Place::Running(p, assigned) => (Stand::Running(p), assigned),
    }
}

fn is_admission(own: OwnRow) -> bool
    ensures { result ≡ is_admitted (Some (own_row own)) }
{
    matches!(own, OwnRow::Admit(_, _))
}
