//! A run of a session over several revisions: the setups are read, each revision opened, the slots served, and the journals printed.
ghost use Rattle.std.specs.Prelude.{◌≡◌, ◌≤◌, ◌^◌, length, map, IfOk};
ghost use Rattle.kn_event.specs.Lists.{EachIs};
ghost use Rattle.kn_io.specs.Causes.{Rose};
ghost use Rattle.kn_serve.specs.Setup.{HasBrokenOff};
ghost use Rattle.kn_serve.specs.Texts.{IsToldOn, status_text};
ghost use Rattle.kn_many.specs.Many.{AreOpenedAt, IsInWideRange, IsReadyFor};
ghost use Rattle.kn_many.specs.ManyCourse.{CourseAll};

use crate::ending::{clear_all, end_of_all};
use crate::setups::read_setups;
use kn_core::Revision;
use kn_directory::Revisions;
use kn_event::Memory;
use kn_io::{Caller, Clock, Failed, Gate, PodLink, Sink, Source};
use kn_journal::{Setup, Status};
use kn_plan::WidePlan;
use kn_print::print_journals;
use kn_replay::status_of;
use kn_request::WideSlot;
use kn_serve::{Outside, open_revision, run_laws, start_of, tell};
use kn_session::{WideSetting, serve_wide_session};
use std::alloc::Global;
use std::sync::Wait;
use std::thread::Threads;

/// The specifications of the setups, copied, each to be found by its name.
fn specs_of(alloc: Global, setups: &[Setup]) -> Result<Revisions, Memory>
    ensures { IfOk result (λ specs. specs ≡ map (λ s. s.spec) setups.now) }
{
    let mut specs = Vec::new(alloc);
    for setup in setups {
        let spec = setup.spec.copy(alloc)?;
        if specs.push(spec).is_err() {
            return Err(Memory);
        }
    }
    Revisions::new(alloc, specs)
}

/// The revision of each setup at the start, with all the memory that it will ever have.
fn open_revisions(alloc: Global, setups: &[Setup], start: u64) -> Result<Vec<Revision>, Memory>
    requires { start ≤ 2 ^ 42 }
    ensures many { IfOk result (λ rs. length rs.items ≡ length setups.now) }
    ensures opened { IfOk result (λ rs. AreOpenedAt setups.now start rs.items) }
{
    let mut revisions = Vec::new(alloc);
    for setup in setups {
        let revision = open_revision(alloc, &setup.spec, start)?;
        if revisions.push(revision).is_err() {
            return Err(Memory);
        }
    }
    Ok(revisions)
}

/// Serves a session over several revisions, and prints its journals.
pub fn serve_all<
    S: Source,
    C: Caller + Send,
    L: PodLink + Send,
    K: Clock + Sync,
    G: Gate + Sync,
    O: Sink,
    R: Threads + Wait + Sync,
>(
    rt: &R,
    alloc: Global,
    plan: &WidePlan,
    setups: &mut S,
    slots: &mut [WideSlot<C, L>],
    keepers: &mut [L],
    clock: &K,
    gate: &G,
    out: &mut O,
) -> Status
    requires plan { IsInWideRange plan.now }
    requires count { (length slots.old ≡ plan.now.slots) × (length keepers.old ≡ length plan.now.pods) }
    requires slots { EachIs (IsReadyFor (length plan.now.pods)) slots.old }
    ensures course { CourseAll ⟦<() as Outside<S, C, L, K, O>>⟧.seen plan clock setups slots keepers out result }
    ensures slots { EachIs (IsReadyFor (length plan.now.pods)) slots.new }
    ensures keepers { length keepers.new ≡ length keepers.old }
    ensures read_fault { result ≡ Status.ReadFault → HasBrokenOff S.Faulty.faults S.given setups }
    ensures write_fault { result ≡ Status.WriteFault → Rose (O.Faulty.faults out.old) (O.Faulty.faults out.new) }
{
    run_laws(clock);
    let read = match read_setups(alloc, setups, plan.pods.items().len() as u64) {
        Ok(read) => read,
        Err(error) => return status_of(error),
    };
    let start = start_of(clock);
    let Ok(specs) = specs_of(alloc, read.items()) else {
        return Status::Memory;
    };
    let Ok(revisions) = open_revisions(alloc, read.items(), start) else {
        return Status::Memory;
    };
    let setting = WideSetting {
        alloc,
        specs: &specs,
        clock,
        gate,
        room: plan.room,
        rounds: plan.rounds,
        start,
    };
    let histories = match serve_wide_session(rt, &setting, revisions, slots, keepers) {
        Ok(histories) => histories,
        Err(Memory) => return Status::Memory,
    };
    let ended = end_of_all(slots);
    clear_all(slots);
    match print_journals(read.items(), start, &histories, out) {
        Ok(()) => ended,
        Err(Failed) => Status::WriteFault,
    }
}

/// Serves a session over several revisions, each with a cell of its own: the setups are read, each revision opened, every round of
/// every slot served by the revision that its head names, with the ticker of all beside them, and each history printed as a journal
/// that `kact replay` reads, one after the other in the setups' order. Printing takes no memory.
///
/// The status is that of the setups' fault, or `Memory` at opening, and then nothing else was touched; or `WriteFault`; or `SlotFault`
/// of the least slot with a round that ended in a fault, of whichever revision; or `Memory`, where a round ended so; or `Ok`. What it
/// tells is told on `err`.
pub fn serve_many<
    S: Source,
    C: Caller + Send,
    L: PodLink + Send,
    K: Clock + Sync,
    G: Gate + Sync,
    O: Sink,
    E: Sink,
    R: Threads + Wait + Sync,
>(
    rt: &R,
    alloc: Global,
    plan: &WidePlan,
    setups: &mut S,
    slots: &mut [WideSlot<C, L>],
    keepers: &mut [L],
    clock: &K,
    gate: &G,
    out: &mut O,
    err: &mut E,
) -> Status
    requires plan { IsInWideRange plan.now }
    requires count { (length slots.old ≡ plan.now.slots) × (length keepers.old ≡ length plan.now.pods) }
    requires slots { EachIs (IsReadyFor (length plan.now.pods)) slots.old }
    ensures course { CourseAll ⟦<() as Outside<S, C, L, K, O>>⟧.seen plan clock setups slots keepers out result }
    ensures slots { EachIs (IsReadyFor (length plan.now.pods)) slots.new }
    ensures keepers { length keepers.new ≡ length keepers.old }
    ensures read_fault { result ≡ Status.ReadFault → HasBrokenOff S.Faulty.faults S.given setups }
    ensures write_fault { result ≡ Status.WriteFault → Rose (O.Faulty.faults out.old) (O.Faulty.faults out.new) }
    ensures told { IsToldOn E.held E.Faulty.faults (status_text result) err }
{
    let status = serve_all(rt, alloc, plan, setups, slots, keepers, clock, gate, out);
    tell(status, err)
}
