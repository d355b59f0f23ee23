//! What comes next of each kind, and of all.
ghost use Rattle.std.specs.Prelude.{◌≡◌, ℕ, ◌≤◌, ◌<◌, ◌^◌, ◌+◌, List, [], true, false, None, Some, slice_get, length, IfSome};
ghost use Rattle.kn_event.specs.Lists.{contains};
ghost use Rattle.kn_trace.specs.Trace.{Trace, arrivals, is_running, waiting};
ghost use Rattle.kn_core.specs.State.{StandsFor};
ghost use Rattle.kn_agenda.specs.declared.agenda.Start.{Start as StartValue};
ghost use Rattle.kn_agenda.specs.declared.job.Job.{Job as JobValue};
ghost use Rattle.kn_agenda.specs.Workload.{IsWorkload, Workload};
ghost use Rattle.kn_agenda.specs.Due.{IsNext};
ghost use Rattle.kn_agenda.specs.Kinds.{IsFirstOf, sooner_of};
ghost use Rattle.kn_agenda.specs.Keeps.{FinishesFirst, Keeps, KeepsBy};
ghost use Rattle.kn_agenda.specs.Runs.{ComeByJobs, NobodyWaitsBelow};

use crate::agenda::Agenda;
use crate::item::{Item, Kind};
use crate::job::job_at;
use crate::workload::WorkloadView;
use kn_core::Revision;
use kn_event::Stand;
use kn_laws::laws::history_laws;
use kn_record::facts::fact_laws;
use kn_sizes::server::request_laws;

/// How far ticks are apart, in milliseconds.
const TICK: u64 = 2000;

/// The first request from this number on that waits, or else the number of the next one.
pub fn first_waiting(revision: &Revision, from: u64) -> u64
    ensures before { (c : Trace) (r : ℕ) → StandsFor revision.now c → from ≤ r → r < result → contains r (waiting c) ≡ false }
    ensures found { (c : Trace) → StandsFor revision.now c → from ≤ arrivals c → result < arrivals c → contains result (waiting c) ≡ true }
    ensures most { (c : Trace) → StandsFor revision.now c → from ≤ arrivals c → result ≤ arrivals c }
{
    request_laws();
    let end = revision.arrivals();
    for r in from..end {
        match revision.stand(r) {
            Stand::Held | Stand::Queued(_) => return r,
            _ => {}
        }
    }
    end
}

/// Whether a request runs.
fn runs(revision: &Revision, r: u64) -> bool
    ensures { (c : Trace) → StandsFor revision.now c → result ≡ is_running c r }
{
    request_laws();
    matches!(revision.stand(r), Stand::Running(_))
}

impl Agenda {
    /// When the next running request finishes, and its number; those that don't run any more are let go.
    fn next_finish(&mut self, revision: &Revision) -> Option<(u64, u64)>
        ensures keeps { KeepsBy revision.now self.old self.new }
        ensures first { (jobs : List JobValue) (c : Trace) → StandsFor revision.now c → Keeps jobs c self.old.finishes self.old.starting → IfSome result (λ p. FinishesFirst jobs c p.0 p.1) }
        ensures none { (jobs : List JobValue) (c : Trace) (r : ℕ) → StandsFor revision.now c → Keeps jobs c self.old.finishes self.old.starting → result ≡ None → is_running c r ≡ false }
        ensures starting { self.new.starting ≡ self.old.starting }
        ensures room { self.new.room ≡ self.old.room }
    {
        while let Some((time, r)) = self.top() {
            if runs(revision, r) {
                return Some((time, r));
            }
            self.drop_top();
        }
        None
    }

    /// The next finish of a running request.
    fn finish_item(&mut self, revision: &Revision) -> Option<Item>
        ensures keeps { KeepsBy revision.now self.old self.new }
        ensures first { (w : Workload) (c : Trace) (ticks : ℕ) → StandsFor revision.now c → Keeps w.jobs c self.old.finishes self.old.starting → IsFirstOf w c ticks Kind.Finishes result }
        ensures starting { self.new.starting ≡ self.old.starting }
        ensures room { self.new.room ≡ self.old.room }
    {
        match self.next_finish(revision) {
            Some((time, r)) => Some(Item {
                time,
                kind: Kind::Finishes,
                number: r,
            }),
            None => None,
        }
    }

    /// The next pod that becomes ready, so long after it was created.
    fn ready_item(&self, boot: u64) -> Option<Item>
        requires { boot ≤ 600000 }
        ensures none { result ≡ None → self.now.starting ≡ [] }
        ensures some { IfSome result (λ x. (p : StartValue) × (slice_get self.now.starting 0 ≡ Some p) × (x ≡ record { time = p.time + boot; kind = Kind.Readies; number = p.pod })) }
    {
        match self.first_start() {
            Some(s) => Some(Item {
                time: s.time + boot,
                kind: Kind::Readies,
                number: s.pod,
            }),
            None => None,
        }
    }
}

/// The next expiry of a waiting request, of whom none is below `waits`.
fn next_pass(w: &WorkloadView, revision: &Revision, waits: u64) -> Option<Item>
    requires { IsWorkload w.now }
    ensures { (c : Trace) (ticks : ℕ) → StandsFor revision.now c → ComeByJobs w.now.jobs c → arrivals c ≤ length w.now.jobs → waits ≤ arrivals c → NobodyWaitsBelow c waits → IsFirstOf w.now c ticks Kind.Passes result }
{
    fact_laws();
    let r = first_waiting(revision, waits);
    if r < revision.arrivals() {
        match job_at(w.jobs(), r) {
            Some(job) => Some(Item {
                time: job.time + w.timeout(),
                kind: Kind::Passes,
                number: r,
            }),
            None => None,
        }
    } else {
        None
    }
}

/// The arrival of the next job.
fn next_arrival(w: &WorkloadView, revision: &Revision) -> Option<Item>
    ensures { (c : Trace) (ticks : ℕ) → StandsFor revision.now c → IsFirstOf w.now c ticks Kind.Arrives result }
{
    let r = revision.arrivals();
    match job_at(w.jobs(), r) {
        Some(job) => Some(Item {
            time: job.time,
            kind: Kind::Arrives,
            number: r,
        }),
        None => None,
    }
}

/// The next tick, behind so many.
fn next_tick(w: &WorkloadView, ticks: u64) -> Item
    requires workload { IsWorkload w.now }
    requires ticks { ticks ≤ 2 ^ 40 }
    ensures { (c : Trace) → IsFirstOf w.now c ticks Kind.Ticks (Some result) }
{
    Item {
        time: w.start() + TICK * (ticks + 1),
        kind: Kind::Ticks,
        number: ticks,
    }
}

/// Of two the one whose time is less, else the first.
fn sooner_of(x: Option<Item>, y: Option<Item>) -> Option<Item>
    ensures { result ≡ sooner_of x y }
{
    match (x, y) {
        (Some(a), Some(b)) => if b.time < a.time { y } else { x },
        (Some(_), None) => x,
        (None, _) => y,
    }
}

/// The same, where the second is there.
fn sooner(first: Option<Item>, last: Item) -> Item
    ensures { sooner_of first (Some last) ≡ Some result }
{
    match first {
        Some(x) => if last.time < x.time { last } else { x },
        None => last,
    }
}

impl Agenda {
    /// What comes next: of what is due the one of least time, then of the earliest kind, then of the least number. No request below
    /// `waits` waits, and there were so many ticks.
    pub fn next_item(
        &mut self,
        w: &WorkloadView,
        revision: &Revision,
        waits: u64,
        ticks: u64,
    ) -> Item
        requires workload { IsWorkload w.now }
        requires ticks { ticks ≤ 2 ^ 40 }
        ensures keeps { KeepsBy revision.now self.old self.new }
        ensures next { (c : Trace) → StandsFor revision.now c → Keeps w.now.jobs c self.old.finishes self.old.starting → ComeByJobs w.now.jobs c → arrivals c ≤ length w.now.jobs → waits ≤ arrivals c → NobodyWaitsBelow c waits → IsNext w.now c ticks result }
        ensures room { self.new.room ≡ self.old.room }
    {
        fact_laws();
        history_laws();
        let finish = self.finish_item(revision);
        let ready = self.ready_item(w.boot());
        let pass = next_pass(w, revision, waits);
        let arrival = next_arrival(w, revision);
        let tick = next_tick(w, ticks);
        let first = sooner_of(finish, ready);
        let first = sooner_of(first, pass);
        let first = sooner_of(first, arrival);
        sooner(first, tick)
    }
}
