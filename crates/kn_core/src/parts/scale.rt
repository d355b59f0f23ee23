//! What the autoscaler adds to an act.
ghost use Rattle.std.specs.Prelude.{◌≡◌, None, Some, true, ◌+◌, ◌≤◌, ◌++◌, length};
ghost use Rattle.kn_event.specs.Revision.{AreInRange};
ghost use Rattle.kn_event.specs.declared.entry.Row.TheVariants as row;
ghost use Rattle.kn_event.specs.declared.event.Act.TheVariants as act;
ghost use Rattle.kn_trace.specs.Trace.{Trace};
ghost use Rattle.kn_core.specs.Changes.{AddsProper, AddsRows, AnswersFirst, CanScale, IsReadyFor, OnlyScales, is_admitted, is_own_of, says_ruling};
ghost use Rattle.kn_core.specs.Ruled.{applied_rows, decided_rows, said_rows};
ghost use Rattle.kn_core.specs.State.{ArePartsOf, IsMeasuredAt};

use super::Parts;
use crate::scaling;
use kn_event::{Act, Entry, EntryLog, Row};
use kn_pods::laws::row_laws;
use kn_record::append::walk_laws;
use kn_scaler::Ruled;
use kn_scaler::laws::row_laws as ruling_laws;
use kn_sizes::sizes::size_laws;

impl Parts {
    /// The decision of a tick, or of an arrival that wakes the revision, with all that follows from it. Answers the first row.
    /// The act's own row is looked at first: it's at hand, and tells most acts apart.
    #[inline(always)]
    pub(super) fn decide(
        &mut self,
        act: Act,
        own: Option<Row>,
        limit: u64,
        time: u64,
        log: &mut EntryLog,
    ) -> Option<Row>
        requires some { IsReadyFor (decided_rows time act own) self.old }
        requires own { is_own_of act own ≡ true }
        requires ranges { AreInRange self.old.throttle.spec }
        requires can { CanScale limit time self.old }
        requires room { length log.old ≤ 65033 }
        ensures adds { AddsProper (decided_rows time act own) self.old self.new log.old log.new }
        ensures scales { OnlyScales time 503 self.old self.new log.old log.new }
        ensures measured { IsMeasuredAt time self.new.scaler }
        ensures ruling { says_ruling result ≡ true }
        ensures row { own ≡ None → AnswersFirst (decided_rows time act own) self.old result }
    {
        match own {
            None => self.tick_by(act, limit, time, log),
            Some(_) => {
                self.wake_by(own, limit, time, log);
                None
            }
        }
    }

    /// The decision of an act without a row of its own, if that is a tick. Answers the first row.
    #[inline(always)]
    fn tick_by(&mut self, act: Act, limit: u64, time: u64, log: &mut EntryLog) -> Option<Row>
        requires some { IsReadyFor (decided_rows time act None) self.old }
        requires ranges { AreInRange self.old.throttle.spec }
        requires can { CanScale limit time self.old }
        requires room { length log.old ≤ 65033 }
        ensures adds { AddsProper (decided_rows time act None) self.old self.new log.old log.new }
        ensures scales { OnlyScales time 503 self.old self.new log.old log.new }
        ensures measured { IsMeasuredAt time self.new.scaler }
        ensures ruling { says_ruling result ≡ true }
        ensures row { AnswersFirst (decided_rows time act None) self.old result }
    {
        match act {
            Act::Tick => self.tick(limit, time, log),
            _ => None,
        }
    }

    /// The decision of an arrival with this row, where no pod is wanted.
    #[inline(always)]
    fn wake_by(&mut self, own: Option<Row>, limit: u64, time: u64, log: &mut EntryLog)
        requires some { IsReadyFor (decided_rows time (act.Arrive 0) own) self.old }
        requires ranges { AreInRange self.old.throttle.spec }
        requires can { CanScale limit time self.old }
        requires room { length log.old ≤ 65033 }
        ensures adds { AddsProper (decided_rows time (act.Arrive 0) own) self.old self.new log.old log.new }
        ensures scales { OnlyScales time 503 self.old self.new log.old log.new }
        ensures measured { IsMeasuredAt time self.new.scaler }
    {
        if is_admitted(own) {
            self.wake(limit, time, log);
        }
    }

    /// The decision of a tick, or that there is no data for one. Answers the first row.
    fn tick(&mut self, limit: u64, time: u64, log: &mut EntryLog) -> Option<Row>
        requires some { IsReadyFor (decided_rows time act.Tick None) self.old }
        requires ranges { AreInRange self.old.throttle.spec }
        requires can { CanScale limit time self.old }
        requires room { length log.old ≤ 65033 }
        ensures adds { AddsProper (decided_rows time act.Tick None) self.old self.new log.old log.new }
        ensures scales { OnlyScales time 503 self.old self.new log.old log.new }
        ensures measured { IsMeasuredAt time self.new.scaler }
        ensures ruling { says_ruling result ≡ true }
        ensures row { AnswersFirst (decided_rows time act.Tick None) self.old result }
    {
        row_laws();
        walk_laws();
        size_laws();
        ruling_laws();
        let ready = self.pods.count_ready();
        match scaling::tick(&mut self.scaler, time, ready) {
            None => None,
            Some(None) => {
                log.put(Entry {
                    time,
                    row: Row::NoData,
                });
                Some(Row::NoData)
            }
            Some(Some(ruled)) => {
                self.rule(ruled, limit, time, log);
                Some(Row::Decided(ruled.decision))
            }
        }
    }

    /// The decision of an arrival that was admitted, where no pod is wanted.
    pub(super) fn wake(&mut self, limit: u64, time: u64, log: &mut EntryLog)
        requires some { IsReadyFor (decided_rows time (act.Arrive 0) (Some (row.Admit 0 0))) self.old }
        requires ranges { AreInRange self.old.throttle.spec }
        requires can { CanScale limit time self.old }
        requires room { length log.old ≤ 65033 }
        ensures adds { AddsProper (decided_rows time (act.Arrive 0) (Some (row.Admit 0 0))) self.old self.new log.old log.new }
        ensures scales { OnlyScales time 503 self.old self.new log.old log.new }
        ensures measured { IsMeasuredAt time self.new.scaler }
    {
        row_laws();
        walk_laws();
        size_laws();
        ruling_laws();
        let ready = self.pods.count_ready();
        if let Some(ruled) = scaling::wake(&mut self.scaler, time, ready) {
            self.rule(ruled, limit, time, log);
        }
    }

    /// The rows of a decision that the autoscaler has made.
    fn rule(&mut self, ruled: Ruled, limit: u64, time: u64, log: &mut EntryLog)
        requires some { ∥ ((c : Trace) × AreInRange self.old.throttle.spec × ArePartsOf self.old.throttle.spec self.old c) ∥₁ }
        requires want { ruled.decision.want ≤ 500 }
        requires can { CanScale limit time self.old }
        requires room { length log.old ≤ 65033 }
        ensures adds { AddsRows (applied_rows time ruled) self.old self.new (log.old ++ said_rows time ruled) log.new }
        ensures scales { OnlyScales time 503 self.old self.new log.old log.new }
        ensures scaler { self.new.scaler ≡ self.old.scaler }
    {
        say(ruled, time, log);
        if ruled.decision.applied {
            self.scale(ruled.decision.want, limit, time, log);
        }
    }
}

fn is_admitted(own: Option<Row>) -> bool
    ensures { result ≡ is_admitted own }
{
    matches!(own, Some(Row::Admit(_, _)))
}

/// A decision, and the phase and the mode where it changed them.
fn say(ruled: Ruled, time: u64, log: &mut EntryLog)
    requires { length log.old ≤ 65533 }
    ensures logged { log.new ≡ log.old ++ said_rows time ruled }
    ensures most { length log.new ≤ length log.old + 3 }
{
    log.put(Entry {
        time,
        row: Row::Decided(ruled.decision),
    });
    if let Some(phase) = ruled.phase {
        log.put(Entry {
            time,
            row: Row::Phase(phase),
        });
    }
    if let Some(mode) = ruled.mode {
        log.put(Entry {
            time,
            row: Row::Mode(mode),
        });
    }
}
