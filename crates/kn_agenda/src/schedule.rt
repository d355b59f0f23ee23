//! The events of a workload, one after the other.
ghost use Rattle.std.specs.Prelude.{◌≡◌, ◌+◌, ◌≤◌, ◌^◌, ◌++◌, ◌∷◌, [], List, None, IfOk, IfSome};
ghost use Rattle.kn_event.specs.declared.event.Event.{Event as EventValue};
ghost use Rattle.kn_event.specs.EventLine.{IsInJournalRange, IsInVersion};
ghost use Rattle.kn_agenda.specs.Due.{IsNext, LeavesNothingDue, event_of, ticks_of};
ghost use Rattle.kn_agenda.specs.Kinds.{ticks_behind};
ghost use Rattle.kn_agenda.specs.Runs.{so_far};
ghost use Rattle.kn_agenda.specs.Schedule.{ComesToSome, Made};
ghost use Rattle.kn_agenda.specs.Workload.{IsWorkload};

use crate::agenda::Agenda;
use crate::item::{Item, Kind};
use crate::job::job_at;
use crate::laws::next_laws;
use crate::nexts::first_waiting;
use crate::workload::WorkloadView;
use kn_core::Revision;
use kn_event::{Act, EntryLog, Event, Memory};
use kn_laws::laws::{history_laws, trace_laws};
use kn_laws::parts::part_laws;
use kn_record::facts::fact_laws;
use kn_sizes::server::lasting_laws;
use kn_sizes::sizes::size_laws;
use std::alloc::Global;
use std::marker::Model;

/// The event of an item.
fn event_of(w: &WorkloadView, item: Item) -> Event
    ensures value { result ≡ event_of w.now item }
    ensures range { IsInJournalRange result.act }
    ensures version { IsInVersion 1 result.act }
{
    let act = match item.kind {
        Kind::Finishes => Act::Finish(item.number, true),
        Kind::Readies => Act::Ready(item.number),
        Kind::Passes => Act::Pass,
        Kind::Arrives => match job_at(w.jobs(), item.number) {
            Some(job) => Act::Arrive(job.tag),
            None => Act::Arrive(0),
        },
        Kind::Ticks => Act::Tick,
    };
    Event {
        time: item.time,
        act,
    }
}

/// How many ticks there were, behind an item of this kind.
fn ticks_behind(ticks: u64, kind: Kind) -> u64
    requires { ticks ≤ 2 ^ 40 }
    ensures { result ≡ ticks_behind ticks kind }
{
    match kind {
        Kind::Ticks => ticks + 1,
        _ => ticks,
    }
}

/// A revision that takes the events of a workload.
///
/// Contracts see of which lists of events it has made each, one after the other: such a list is part of it.
#[derive(Drop)]
pub struct Schedule<'a> {
    workload: WorkloadView<'a>,
    revision: Revision,
    log: EntryLog,
    agenda: Agenda,
    /// No request below it waits.
    waits: u64,
    ticks: u64,
}

impl<'a> Model for Schedule<'a> {
    ghost use Rattle.kn_agenda.specs.Schedule.{IsKept, ScheduleState};

    ghost Value = { ScheduleState };

    ghost view = { λ x. record { workload = x.workload; revision = x.revision; agenda = x.agenda; waits = x.waits; ticks = x.ticks } };

    ghost invariant = { λ x. IsKept (record { workload = x.workload; revision = x.revision; agenda = x.agenda; waits = x.waits; ticks = x.ticks }) };
}

impl<'a> Schedule<'a> {
    /// Opens the revision, with all the memory that a schedule of this workload ever takes. No event was made.
    pub fn new(alloc: Global, workload: WorkloadView<'a>) -> Result<Schedule<'a>, Memory>
        requires { IsWorkload workload }
        ensures made { IfOk result (λ x. Made [] x) }
        ensures workload { IfOk result (λ x. x.workload ≡ workload.entry) }
        ensures clock { IfOk result (λ x. x.revision.clock ≡ workload.entry.start) }
    {
        fact_laws();
        part_laws();
        history_laws();
        size_laws();
        let spec = workload.spec().copy(alloc)?;
        let mut log = EntryLog::new(alloc)?;
        let revision = Revision::new(alloc, spec, workload.start(), &mut log)?;
        let mut agenda = Agenda::new(alloc, workload.jobs().len())?;
        agenda.hear_all(log.entries(), workload.jobs());
        Ok(Schedule {
            workload,
            revision,
            log,
            agenda,
            waits: 0,
            ticks: 0,
        })
    }

    /// What comes next, be it past the end or not.
    fn next_item(&mut self) -> Item
        ensures next { (es : List EventValue) → Made es self.old → IsNext self.old.workload (so_far self.old.workload es) (ticks_of es) result }
        ensures stays { (es : List EventValue) → Made es self.old → Made es self.new }
        ensures some { ComesToSome self.new result }
        ensures good { IsWorkload self.new.workload }
        ensures events { self.new.revision.events ≡ self.old.revision.events }
        ensures clock { self.new.revision.clock ≡ self.old.revision.clock }
        ensures workload { self.new.workload ≡ self.old.workload }
    {
        self.waits = first_waiting(&self.revision, self.waits);
        self.agenda
            .next_item(&self.workload, &self.revision, self.waits, self.ticks)
    }

    /// Takes what comes next, and answers its event.
    fn take(&mut self, item: Item) -> Event
        requires next { ComesToSome self.old item }
        requires good { IsWorkload self.old.workload }
        requires time { item.time ≤ self.old.workload.until }
        ensures goes { (es : List EventValue) → Made es self.old → IsNext self.old.workload (so_far self.old.workload es) (ticks_of es) item → Made (es ++ result ∷ []) self.new }
        ensures counted { self.new.revision.events ≡ self.old.revision.events + 1 }
        ensures few { self.new.revision.events ≤ 71886900 }
        ensures order { self.old.revision.clock ≤ result.time }
        ensures time { result.time ≡ item.time }
        ensures clock { self.new.revision.clock ≡ result.time }
        ensures range { IsInJournalRange result.act }
        ensures version { IsInVersion 1 result.act }
        ensures workload { self.new.workload ≡ self.old.workload }
    {
        fact_laws();
        part_laws();
        lasting_laws();
        next_laws();
        trace_laws();
        let e = event_of(&self.workload, item);
        self.log.clear();
        self.revision.take(&e, &mut self.log);
        self.agenda
            .hear_all(self.log.entries(), self.workload.jobs());
        self.ticks = ticks_behind(self.ticks, item.kind);
        e
    }

    /// How many events were taken.
    pub fn events(&self) -> u64
        ensures { result ≡ self.now.revision.events }
    {
        self.revision.events()
    }

    /// Takes the next event, and answers it; none where nothing is due up to the end.
    pub fn next(&mut self) -> Option<Event>
        ensures over { result ≡ None → (es : List EventValue) → Made es self.old → LeavesNothingDue self.old.workload es }
        ensures stays { result ≡ None → (es : List EventValue) → Made es self.old → Made es self.new }
        ensures goes { IfSome result (λ e. (es : List EventValue) → Made es self.old → Made (es ++ e ∷ []) self.new) }
        ensures counted { IfSome result (λ e. self.new.revision.events ≡ self.old.revision.events + 1) }
        ensures few { IfSome result (λ e. self.new.revision.events ≤ 71886900) }
        ensures order { IfSome result (λ e. self.old.revision.clock ≤ e.time) }
        ensures until { IfSome result (λ e. e.time ≤ self.old.workload.until) }
        ensures clock { IfSome result (λ e. self.new.revision.clock ≡ e.time) }
        ensures range { IfSome result (λ e. IsInJournalRange e.act) }
        ensures version { IfSome result (λ e. IsInVersion 1 e.act) }
        ensures workload { self.new.workload ≡ self.old.workload }
    {
        next_laws();
        let item = self.next_item();
        if item.time > self.workload.until() {
            None
        } else {
            Some(self.take(item))
        }
    }
}
