//! A run of a session: its setup is read, its revision opened, its slots served, and its journal printed.
ghost use Rattle.std.specs.Prelude.{◌≡◌, ◌≤◌, ◌^◌, length, IfOk};
ghost use Rattle.kn_event.specs.Lists.{EachIs};
ghost use Rattle.kn_io.specs.Causes.{Rose};
ghost use Rattle.kn_trace.specs.Events.{opening};
ghost use Rattle.kn_trace.specs.Trace.{Trace};
ghost use Rattle.kn_core.specs.State.{StandsFor};
ghost use Rattle.kn_core.specs.Gauges.{count_live};
ghost use Rattle.kn_cell.specs.Books.{IsOpenedBy};
ghost use Rattle.kn_serve.specs.Course.{CourseBy};
ghost use Rattle.kn_serve.specs.Opening.{IsEmptyWork};
ghost use Rattle.kn_serve.specs.Running.{IsInRange, IsStart};
ghost use Rattle.kn_serve.specs.Setup.{HasBrokenOff};
ghost use Rattle.kn_serve.specs.Texts.{IsToldOn, status_text};

use crate::ending::{clear, end_of};
use crate::outside::Outside;
use crate::setup::read_setup;
use crate::telling::tell;
use kn_core::Revision;
use kn_event::{EntryLog, Memory, Spec};
use kn_io::{Caller, Clock, Failed, Gate, PodLink, Sink, Source};
use kn_journal::{Status, journals_are_read};
use kn_plan::Plan;
use kn_print::print_journal;
use kn_replay::status_of;
use kn_request::Slot;
use kn_session::{Setting, serve_session};
use std::alloc::Global;
use std::sync::Wait;
use std::thread::Threads;

/// The latest time that a journal has, in milliseconds.
const LATEST: u64 = 4_398_046_511_104;

/// The clock's time, or 2^42 where that is more.
pub fn start_of<K: Clock>(clock: &K) -> u64
    ensures start { IsStart (K.reading clock.now) result }
    ensures most { result ≤ 2 ^ 42 }
{
    let now = clock.now_ms();
    if now < LATEST { now } else { LATEST }
}

/// The revision at its start, with all the memory that it will ever have.
pub fn open_revision(alloc: Global, spec: &Spec, start: u64) -> Result<Revision, Memory>
    requires { start ≤ 2 ^ 42 }
    ensures stands { IfOk result (λ r. StandsFor r (opening spec.now start)) }
    ensures spec { IfOk result (λ r. r.spec ≡ spec.now) }
    ensures clock { IfOk result (λ r. r.clock ≡ start) }
    ensures events { IfOk result (λ r. r.events ≡ 0) }
    ensures live { IfOk result (λ r. (c : Trace) → StandsFor r c → count_live c ≡ 0) }
{
    match open_logged(alloc, spec, start) {
        Ok((revision, _)) => Ok(revision),
        Err(Memory) => Err(Memory),
    }
}

/// The same, and the entries that the revision opened with.
pub fn open_logged(alloc: Global, spec: &Spec, start: u64) -> Result<(Revision, EntryLog), Memory>
    requires { start ≤ 2 ^ 42 }
    ensures stands { IfOk result (λ r. StandsFor r.0 (opening spec.now start)) }
    ensures spec { IfOk result (λ r. r.0.spec ≡ spec.now) }
    ensures clock { IfOk result (λ r. r.0.clock ≡ start) }
    ensures events { IfOk result (λ r. r.0.events ≡ 0) }
    ensures live { IfOk result (λ r. (c : Trace) → StandsFor r.0 c → count_live c ≡ 0) }
    ensures opened { IfOk result (λ r. IsOpenedBy r.0 r.1) }
{
    let mut log = EntryLog::new(alloc)?;
    let spec = spec.copy(alloc)?;
    let revision = Revision::new(alloc, spec, start, &mut log)?;
    let live = revision.live();
    prove!(live == 0);
    Ok((revision, log))
}

/// Serves a session, and prints its journal.
pub fn serve<
    S: Source,
    C: Caller + Send,
    L: PodLink + Send,
    K: Clock + Sync,
    G: Gate + Sync,
    O: Sink,
    R: Threads + Wait + Sync,
>(
    rt: &R,
    alloc: Global,
    plan: &Plan,
    setup: &mut S,
    slots: &mut [Slot<C, L>],
    keeper: &mut L,
    clock: &K,
    gate: &G,
    out: &mut O,
) -> Status
    requires plan { IsInRange plan.now }
    requires count { length slots.old ≡ plan.now.slots }
    requires works { EachIs (λ s. IsEmptyWork s.work) slots.old }
    ensures course { CourseBy ⟦<() as Outside<S, C, L, K, O>>⟧.seen plan clock setup slots keeper out result }
    ensures works { EachIs (λ s. IsEmptyWork s.work) slots.new }
    ensures read_fault { result ≡ Status.ReadFault → HasBrokenOff S.Faulty.faults S.given setup }
    ensures write_fault { result ≡ Status.WriteFault → Rose (O.Faulty.faults out.old) (O.Faulty.faults out.new) }
{
    journals_are_read();
    let read = match read_setup(alloc, setup) {
        Ok(read) => read,
        Err(error) => return status_of(error),
    };
    let start = start_of(clock);
    let revision = match open_revision(alloc, &read.spec, start) {
        Ok(revision) => revision,
        Err(Memory) => return Status::Memory,
    };
    let setting = Setting {
        alloc,
        spec: &read.spec,
        clock,
        gate,
        room: plan.room,
        rounds: plan.rounds,
        start,
    };
    let history = match serve_session(rt, &setting, revision, slots, keeper) {
        Ok((_, history)) => history,
        Err(Memory) => return Status::Memory,
    };
    let ended = end_of(slots);
    clear(slots);
    match print_journal(&read, start, history.items(), out) {
        Ok(()) => ended,
        Err(Failed) => Status::WriteFault,
    }
}

/// Serves a session: the setup is read, the revision opened, every round of every slot served with the ticker beside them, and
/// the history printed as a journal that `kact replay` reads, in pieces of up to 16 KiB and taking no memory.
///
/// The status is that of the setup's fault, or `Memory` at opening, and then nothing else was touched; or `WriteFault`; or
/// `SlotFault` of the least slot with a round that ended in a fault; or `Memory`, where a round ended so; or `Ok`. What it
/// tells is told on `err`.
pub fn serve_run<
    S: Source,
    C: Caller + Send,
    L: PodLink + Send,
    K: Clock + Sync,
    G: Gate + Sync,
    O: Sink,
    E: Sink,
    R: Threads + Wait + Sync,
>(
    rt: &R,
    alloc: Global,
    plan: &Plan,
    setup: &mut S,
    slots: &mut [Slot<C, L>],
    keeper: &mut L,
    clock: &K,
    gate: &G,
    out: &mut O,
    err: &mut E,
) -> Status
    requires plan { IsInRange plan.now }
    requires count { length slots.old ≡ plan.now.slots }
    requires works { EachIs (λ s. IsEmptyWork s.work) slots.old }
    ensures course { CourseBy ⟦<() as Outside<S, C, L, K, O>>⟧.seen plan clock setup slots keeper out result }
    ensures works { EachIs (λ s. IsEmptyWork s.work) slots.new }
    ensures read_fault { result ≡ Status.ReadFault → HasBrokenOff S.Faulty.faults S.given setup }
    ensures write_fault { result ≡ Status.WriteFault → Rose (O.Faulty.faults out.old) (O.Faulty.faults out.new) }
    ensures told { IsToldOn E.held E.Faulty.faults (status_text result) err }
{
    let status = serve(rt, alloc, plan, setup, slots, keeper, clock, gate, out);
    tell(status, err)
}
