//! One event, part by part, and what it is told. What comes at each event is inlined into one function, in which a row needs
//! no memory but its place in the log: rows are large.
ghost use Rattle.std.specs.Prelude.{◌≡◌, ◌+◌, ◌<◌, ◌≤◌, ◌^◌, [], length, Some, true};
ghost use Rattle.std.specs.Option.{option_or};
ghost use Rattle.kn_event.specs.declared.revision.Spec.{Spec as SpecValue};
ghost use Rattle.kn_trace.specs.Events.{act_row, departures, entries_of, react, told_of, told_row, told_stand};
ghost use Rattle.kn_trace.specs.Laws.{IsSettled};
ghost use Rattle.kn_trace.specs.Trace.{Trace};
ghost use Rattle.kn_record.specs.Order.{AreTimed};
ghost use Rattle.kn_core.specs.Changes.{AddsOwn, AddsRows, AddsWhere, CanEndRequests, CanReact, HasFewPods, IsAlone, IsInOrderAt, IsReadyFor, OnlyEnds, ending_of, says_act, says_ruling};
ghost use Rattle.kn_core.specs.Scaling.{HearsOwn, HearsReady, IsNextInSome, SaysBeforeEnd};
ghost use Rattle.kn_core.specs.State.{ArePartsOf, ArePartsOfSome, IsMeasuredAt};
ghost use Rattle.kn_core.specs.Steps.{IsWithinRange};

use super::Parts;
use crate::scaling;
use kn_event::{Act, Entry, EntryLog, Event, Phase, Row, Stand, Told};
use kn_laws::parts::part_laws;
use kn_pods::laws::row_laws;
use kn_record::append::{append_laws, time_laws, walk_laws};
use kn_record::facts::fact_laws;
use kn_scaler::laws::kind_laws;
use kn_sizes::sizes::{entry_laws, size_laws};

impl Parts {
    /// All that end before the act's own row.
    #[inline(always)]
    fn depart(&mut self, e: &Event, log: &mut EntryLog)
        requires some { ArePartsOfSome self.old }
        requires can { CanEndRequests e.now.time self.old log.old }
        ensures adds { AddsRows (λ s c. departures s c e.now) self.old self.new log.old log.new }
        ensures ends { OnlyEnds e.now.time self.old self.new log.old log.new }
        ensures alone { IsAlone self.new.throttle.admission e.now.act }
        ensures few { HasFewPods self.new }
    {
        walk_laws();
        self.expire(e.time, log);
        self.lose(e.act, e.time, log);
    }

    /// The act's own row, and what it changes. With the row of the first Ready pod that a revision waited for, it is active.
    #[inline(always)]
    fn take(&mut self, e: &Event, log: &mut EntryLog) -> Option<Row>
        requires room { length log.old + 2 ≤ 65536 }
        requires some { IsReadyFor (λ s c. entries_of e.now.time (act_row s c e.now.act)) self.old }
        requires arrivals { self.old.throttle.admission.arrivals < 2 ^ 54 }
        requires order { IsInOrderAt e.now.time self.old }
        requires range { IsWithinRange e.now.act }
        requires alone { IsAlone self.old.throttle.admission e.now.act }
        ensures row { (s : SpecValue) (c : Trace) → ArePartsOf s self.old c → act_row s c e.now.act ≡ result }
        ensures adds { AddsOwn e.now.time result self.old self.new log.old log.new }
        ensures order { IsInOrderAt e.now.time self.new }
        ensures spec { self.new.throttle.spec ≡ self.old.throttle.spec }
        ensures created { self.new.pods.created ≡ self.old.pods.created }
        ensures most { length log.new ≤ length log.old + 2 }
    {
        row_laws();
        append_laws();
        time_laws();
        part_laws();
        let (stand, proxied) = self.before_end(ending(e.act));
        let row = self.act(e, log);
        if let Some(row) = row {
            self.hear(row, stand, proxied, e.time, log);
        }
        row
    }

    /// Where a request stands, and whether the activator handed it to its pod. With no request, or no autoscaler that is to
    /// hear of it, it says nothing.
    #[inline(always)]
    fn before_end(&self, r: Option<u64>) -> (Stand, bool)
        ensures { SaysBeforeEnd r self.now result.0 result.1 }
    {
        match r {
            None => (Stand::Unknown, false),
            Some(r) => {
                if self.scaler.is_none() {
                    return (Stand::Unknown, false);
                }
                (self.throttle.stand(r), self.throttle.proxied(r))
            }
        }
    }

    /// What an act's own row is to the autoscaler, once the others have taken it.
    #[inline(always)]
    fn hear(&mut self, row: Row, stand: Stand, proxied: bool, time: u64, log: &mut EntryLog)
        requires next { IsNextInSome self.old.scaler row stand proxied }
        requires measured { IsMeasuredAt time self.old.scaler }
        requires room { length log.old < 65536 }
        ensures throttle { self.new.throttle ≡ self.old.throttle }
        ensures pods { self.new.pods ≡ self.old.pods }
        ensures hears { HearsOwn time row stand proxied self.old self.new log.old log.new }
        ensures measured { IsMeasuredAt time self.new.scaler }
        ensures most { length log.new ≤ length log.old + 1 }
    {
        row_laws();
        match row {
            Row::Ready(_) => self.activate(time, log),
            _ => scaling::row(&mut self.scaler, row, stand, proxied),
        }
    }

    /// A pod is Ready. A revision that waited for its first one is active from then on.
    fn activate(&mut self, time: u64, log: &mut EntryLog)
        requires measured { IsMeasuredAt time self.old.scaler }
        requires room { length log.old < 65536 }
        ensures throttle { self.new.throttle ≡ self.old.throttle }
        ensures pods { self.new.pods ≡ self.old.pods }
        ensures hears { HearsReady time self.old self.new log.old log.new }
        ensures measured { IsMeasuredAt time self.new.scaler }
        ensures most { length log.new ≤ length log.old + 1 }
    {
        let ready = self.pods.count_ready();
        if scaling::pod_ready(&mut self.scaler, time, ready) {
            log.put(Entry {
                time,
                row: Row::Phase(Phase::Active),
            });
        }
    }

    /// What an event is told by its act's own row, or else by that of a tick, after all of its rows. It is written in place: each
    /// move of it would copy a whole decision.
    #[inline(always)]
    fn tell(&self, own: Option<Row>, decided: Option<Row>, told: &mut Told)
        requires act { says_act own ≡ true }
        requires ruling { says_ruling decided ≡ true }
        ensures { (s : SpecValue) (c : Trace) → ArePartsOf s self.now c → told.new ≡ told_row c (option_or own decided) }
    {
        match own {
            Some(Row::Admit(r, _)) => *told = told_stand(r, self.throttle.stand(r)),
            Some(Row::Direct(r, _)) => *told = told_stand(r, self.throttle.stand(r)),
            Some(Row::QueueFull(r, _)) => *told = Told::QueueFull(r),
            Some(Row::Overload(r)) => *told = Told::Overload(r),
            Some(Row::Finish(r, _)) | Some(Row::Cancel(r)) => *told = Told::Done(r),
            Some(Row::NotRunning(r)) => *told = Told::NotRunning(r),
            Some(Row::NotWaiting(r)) => *told = Told::NotWaiting(r),
            Some(Row::NotStarting(p)) => *told = Told::NotStarting(p),
            Some(Row::NoPod(p)) => *told = Told::NoPod(p),
            Some(_) => *told = Told::Passed,
            None => match decided {
                Some(Row::Decided(decision)) => *told = Told::Decided(decision),
                Some(Row::NoData) => *told = Told::NoData,
                _ => *told = Told::Passed,
            },
        }
    }

    /// One event: the log becomes its rows, and what it is told goes to `told`.
    #[inline(always)]
    pub(crate) fn react(&mut self, e: &Event, limit: u64, log: &mut EntryLog, told: &mut Told)
        requires empty { log.old ≡ [] }
        requires can { CanReact limit e.now.time self.old }
        requires times { e.now.time ≤ 2 ^ 42 }
        requires range { IsWithinRange e.now.act }
        ensures adds { AddsWhere IsSettled (λ s c. react s c e.now) self.old self.new [] log.new }
        ensures told { (s : SpecValue) (c : Trace) → ArePartsOf s self.old c → IsSettled s c → told.new ≡ told_of s c e.now }
        ensures spec { self.new.throttle.spec ≡ self.old.throttle.spec }
        ensures timed { AreTimed e.now.time self.new.throttle.admission }
        ensures created { self.new.pods.created ≤ self.old.pods.created + 500 }
        ensures measured { IsMeasuredAt e.now.time self.new.scaler }
    {
        append_laws();
        walk_laws();
        fact_laws();
        part_laws();
        row_laws();
        kind_laws();
        size_laws();
        entry_laws();
        self.advance(e.time);
        self.depart(e, log);
        let own = self.take(e, log);
        let decided = self.decide(e.act, own, limit, e.time, log);
        self.settle(e.time, log);
        self.tell(own, decided, told);
    }
}

/// The request that may end with an act's own row.
fn ending(act: Act) -> Option<u64>
    ensures { result ≡ ending_of act }
{
    match act {
        Act::Finish(r, _) | Act::Cancel(r) => Some(r),
        _ => None,
    }
}

fn told_stand(r: u64, stand: Stand) -> Told
    ensures { result ≡ told_stand r stand }
{
    match stand {
        Stand::Running(p) => Told::Run(r, p),
        Stand::Queued(p) => Told::AtPod(r, p),
        _ => Told::Held(r),
    }
}
