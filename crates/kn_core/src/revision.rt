//! One revision, in memory that is taken once.
ghost use Rattle.std.specs.Prelude.{◌≡◌, ◌+◌, ◌<◌, ◌≤◌, ◌^◌, [], ◌++◌, false, length, IfOk, IfSome, OnOk, OnErr};
ghost use Rattle.kn_trace.specs.Events.{need_of, opening, react, told_of};
ghost use Rattle.kn_event.specs.declared.event.Event.{Event as EventValue};
ghost use Rattle.kn_trace.specs.Laws.{IsInert, IsLawful, IsSettled};
ghost use Rattle.kn_core.specs.Refused.{LeavesByAnswer};
ghost use Rattle.kn_trace.specs.Trace.{Trace, arrivals, live, next_starting, proxied, stand_of};
ghost use Rattle.kn_laws.specs.Kinds.{EachAt};
ghost use Rattle.kn_core.specs.State.{IsAmongLive, StandsFor, StandsForSome};
ghost use Rattle.kn_core.specs.declared.first.FirstRows.TheVariants as first;
ghost use Rattle.kn_core.specs.Firsts.{first_rows};
ghost use Rattle.kn_core.specs.Steps.{IsWithinRange, Steps, Takes};

mod gauges;

use crate::first::FirstRows;
use crate::parts::Parts;
use kn_event::{EntryLog, Event, Memory, Spec, Stand, Told};
use kn_laws::laws::{history_laws, step_laws};
use kn_laws::parts::part_laws;
use kn_record::append::append_laws;
use kn_sizes::sizes::{count_laws, entry_laws, growth_laws, size_laws};
use std::alloc::Global;
use std::marker::Model;

/// A revision: what the activator, the pods and the autoscaler do at each event. Only `new` takes memory.
///
/// Contracts say for which traces it stands: those that some events made, as many as it took, from its start up to its
/// clock. Times are in milliseconds, at most 2^42.
pub struct Revision {
    spec: Spec,
    start: u64,
    clock: u64,
    events: u64,
    parts: Parts,
}

impl Drop for Revision {
    fn drop(self) {
        let Revision {
            spec: _,
            start: _,
            clock: _,
            events: _,
            parts: _,
        } = self;
    }
}

impl Model for Revision {
    ghost use Rattle.kn_core.specs.State.{IsKept, RevisionState};

    ghost Value = { RevisionState };

    ghost view = { λ r. record { spec = r.spec; start = r.start; clock = r.clock; events = r.events; parts = r.parts } };

    ghost invariant = { λ r. IsKept (record { spec = r.spec; start = r.start; clock = r.clock; events = r.events; parts = r.parts }) };
}

impl Revision {
    /// Opens a revision at the start, with all the memory that it will ever have. The log becomes its opening: its pods'
    /// entries, and the phase of one that scales. It is lawful and settled, and an event that is refused then changes nothing else.
    pub fn new(
        alloc: Global,
        spec: Spec,
        start: u64,
        log: &mut EntryLog,
    ) -> Result<Revision, Memory>
        requires empty { log.old ≡ [] }
        requires times { start ≤ 2 ^ 42 }
        ensures stands { IfOk result (λ r. StandsFor r (opening spec start)) }
        ensures spec { IfOk result (λ r. r.spec ≡ spec) }
        ensures start { IfOk result (λ r. r.start ≡ start) }
        ensures clock { IfOk result (λ r. r.clock ≡ start) }
        ensures events { IfOk result (λ r. r.events ≡ 0) }
        ensures lawful { IfOk result (λ r. (c : Trace) → StandsFor r c → IsLawful r.spec c) }
        ensures settled { IfOk result (λ r. (c : Trace) → StandsFor r c → IsSettled r.spec c) }
        ensures inert { IfOk result (λ r. (c : Trace) (e : EventValue) → StandsFor r c → IsInert r.spec c e) }
        ensures beside { IfOk result (λ r. (c : Trace) (e : EventValue) → StandsFor r c → LeavesByAnswer r.spec c e) }
        ensures logged { OnOk result (log.new ≡ opening spec start) }
        ensures at { OnOk result (EachAt start log.new) }
        ensures err { OnErr result (log.new ≡ []) }
    {
        history_laws();
        step_laws();
        let parts = Parts::open(alloc, &spec, start, log)?;
        Ok(Revision {
            spec,
            start,
            clock: start,
            events: 0,
            parts,
        })
    }

    /// Takes one event: the log becomes what it adds to the trace, and the answer is what it is told. Live requests grow by at
    /// most the need of its act less one. A limit is at most 1,000. Each trace that it stands for afterwards is lawful and
    /// settled, and an event that is refused then changes nothing else.
    #[inline(always)]
    pub fn step(&mut self, e: &Event, log: &mut EntryLog) -> Told
        requires empty { log.old ≡ [] }
        requires order { self.old.clock ≤ e.now.time }
        requires times { e.now.time ≤ 2 ^ 42 }
        requires count { self.old.events < 2 ^ 54 }
        requires limit { IsWithinRange e.now.act }
        ensures logged { (c : Trace) → StandsFor self.old c → log.new ≡ react self.old.spec c e.now }
        ensures told { (c : Trace) → StandsFor self.old c → result ≡ told_of self.old.spec c e.now }
        ensures stands { (c : Trace) → StandsFor self.old c → StandsFor self.new (c ++ react self.old.spec c e.now) }
        ensures at { EachAt e.now.time log.new }
        ensures few { length log.new ≤ 41005 }
        ensures grows { (c : Trace) → StandsFor self.old c → length self.new.parts.throttle.admission.live + 1 ≤ length self.old.parts.throttle.admission.live + need_of c e.now.act }
        ensures lawful { (c : Trace) → StandsFor self.new c → IsLawful self.new.spec c }
        ensures settled { (c : Trace) → StandsFor self.new c → IsSettled self.new.spec c }
        ensures inert { (c : Trace) (e : EventValue) → StandsFor self.new c → IsInert self.new.spec c e }
        ensures beside { (c : Trace) (e : EventValue) → StandsFor self.new c → LeavesByAnswer self.new.spec c e }
        ensures spec { self.new.spec ≡ self.old.spec }
        ensures start { self.new.start ≡ self.old.start }
        ensures clock { self.new.clock ≡ e.now.time }
        ensures events { self.new.events ≡ self.old.events + 1 }
    {
        let mut told = Told::Passed;
        self.step_into(e, log, &mut told);
        told
    }

    /// Takes one event as `step` does. What it is told goes to `told`: each further move of it would copy a whole decision.
    #[inline(always)]
    pub fn step_into(&mut self, e: &Event, log: &mut EntryLog, told: &mut Told)
        requires empty { log.old ≡ [] }
        requires order { self.old.clock ≤ e.now.time }
        requires times { e.now.time ≤ 2 ^ 42 }
        requires count { self.old.events < 2 ^ 54 }
        requires limit { IsWithinRange e.now.act }
        ensures { Steps self.old e.now log.new told.new self.new }
    {
        history_laws();
        step_laws();
        part_laws();
        size_laws();
        count_laws();
        entry_laws();
        growth_laws();
        append_laws();
        let limit = self.limit();
        self.clock = e.time;
        self.events += 1;
        self.parts.react(e, limit, log, told);
    }

    /// Takes one event as `step` does, and answers nothing.
    // (its code stands once in a program: what only one place calls is inlined there, and each further copy of `step` undoes that)
    #[inline(never)]
    pub fn take(&mut self, e: &Event, log: &mut EntryLog)
        requires empty { log.old ≡ [] }
        requires order { self.old.clock ≤ e.now.time }
        requires times { e.now.time ≤ 2 ^ 42 }
        requires count { self.old.events < 2 ^ 54 }
        requires limit { IsWithinRange e.now.act }
        ensures logged { (c : Trace) → StandsFor self.old c → log.new ≡ react self.old.spec c e.now }
        ensures stands { (c : Trace) → StandsFor self.old c → StandsFor self.new (c ++ react self.old.spec c e.now) }
        ensures at { EachAt e.now.time log.new }
        ensures few { length log.new ≤ 41005 }
        ensures spec { self.new.spec ≡ self.old.spec }
        ensures start { self.new.start ≡ self.old.start }
        ensures clock { self.new.clock ≡ e.now.time }
        ensures events { self.new.events ≡ self.old.events + 1 }
    {
        let _ = self.take_by(e, false, log);
    }

    /// Takes one event as `take` does, and answers the rows that it begins with: those, and then the log's, are what it adds to the
    /// trace. Mostly the log stays empty, and no row needs memory.
    #[inline(always)]
    pub fn take_first(&mut self, e: &Event, log: &mut EntryLog) -> FirstRows
        requires empty { log.old ≡ [] }
        requires order { self.old.clock ≤ e.now.time }
        requires times { e.now.time ≤ 2 ^ 42 }
        requires count { self.old.events < 2 ^ 54 }
        requires limit { IsWithinRange e.now.act }
        ensures { Takes self.old e.now (first_rows e.now.time result ++ log.new) self.new }
    {
        self.take_by(e, true, log)
    }

    /// Takes one event as `take` does, and answers the rows that it begins with where that is asked for: else the log has all.
    #[inline(always)]
    fn take_by(&mut self, e: &Event, answers: bool, log: &mut EntryLog) -> FirstRows
        requires empty { log.old ≡ [] }
        requires order { self.old.clock ≤ e.now.time }
        requires times { e.now.time ≤ 2 ^ 42 }
        requires count { self.old.events < 2 ^ 54 }
        requires limit { IsWithinRange e.now.act }
        ensures takes { Takes self.old e.now (first_rows e.now.time result ++ log.new) self.new }
        ensures none { answers ≡ false → result ≡ first.Nothing }
    {
        history_laws();
        step_laws();
        part_laws();
        size_laws();
        count_laws();
        entry_laws();
        growth_laws();
        append_laws();
        let limit = self.limit();
        self.clock = e.time;
        self.events += 1;
        self.parts.react_first(e, answers, limit, log)
    }

    /// The limit of its new pods.
    fn limit(&self) -> u64
        ensures { result ≡ self.now.spec.cc }
    {
        self.spec.cc
    }

    /// Where a request stands: unknown where it has not arrived, ended where it has ended or was refused. Else it is live.
    pub fn stand(&self, r: u64) -> Stand
        ensures stand { (c : Trace) → StandsFor self.now c → result ≡ stand_of c r }
        ensures live { IsAmongLive result (length self.now.parts.throttle.admission.live) }
    {
        self.parts.stand(r)
    }

    /// Whether a request was assigned to a pod, and has not ended.
    pub fn proxied(&self, r: u64) -> bool
        ensures { (c : Trace) → StandsFor self.now c → result ≡ proxied c r }
    {
        self.parts.proxied(r)
    }

    /// The least Starting pod that is not below this number; none exactly where there is none.
    pub fn next_starting(&self, from: u64) -> Option<u64>
        ensures pod { (c : Trace) → StandsFor self.now c → result ≡ next_starting c from }
        ensures from { IfSome result (λ p. from ≤ p) }
        ensures most { IfSome result (λ p. p < 2 ^ 63) }
    {
        self.parts.next_starting(from)
    }

    /// How many requests are live. Some trace is stood for.
    pub fn live(&self) -> u64
        ensures value { result ≡ length self.now.parts.throttle.admission.live }
        ensures live { (c : Trace) → StandsFor self.now c → result ≡ length (live c) }
        ensures some { StandsForSome self.now }
    {
        self.parts.live()
    }

    /// How many requests have arrived, which is the number of the next one.
    pub fn arrivals(&self) -> u64
        ensures { (c : Trace) → StandsFor self.now c → result ≡ arrivals c }
    {
        self.parts.arrivals()
    }

    /// The time of the last event, or the start, in milliseconds.
    pub fn now(&self) -> u64
        ensures value { result ≡ self.now.clock }
        ensures times { self.now.clock ≤ 2 ^ 42 }
    {
        self.clock
    }

    /// How many events were taken.
    pub fn events(&self) -> u64
        ensures { result ≡ self.now.events }
    {
        self.events
    }
}
