//! The journal of a workload's schedule, written piece by piece.
ghost use Rattle.std.specs.Prelude.{◌≡◌, ◌≤◌, ◌++◌, ◌∷◌, [], Err, IfOk, OnErr, OnOk, length};
ghost use Rattle.std.specs.Fmt.{decimal};
ghost use Rattle.kn_io.specs.Causes.{HasCause, Rose};
ghost use Rattle.kn_io.specs.Prefix.{AppendsPrefix};
ghost use Rattle.kn_journal.specs.Journal.{time_most};
ghost use Rattle.kn_agenda.specs.Schedule.{Made};
ghost use Rattle.kn_report.specs.Waiting.{Adds};
ghost use Rattle.kn_sim.specs.Simulated.{IsBegun, IsWorkload, IsWritten, TakesAll, TakesSome, opening_text, plain_of};

use crate::workload::Workload;
use kn_agenda::{Schedule, WorkloadView, schedule_laws};
use kn_event::{Line, Memory, event_line};
use kn_io::{Failed, Sink};
use kn_report::Waiting;
use kn_report::laws::adding_laws;
use std::alloc::Global;

/// Why a journal was not written whole.
#[derive(Clone, Copy)]
pub enum SimError {
    /// The sink failed.
    Failed,
    /// Want of memory; nothing was written.
    Memory,
}

/// Sets the line to a word and a number, with its LF.
#[tactic(auto, using(std::proofs::Common::append_assoc))]
fn set_line(line: &mut Line, word: &[u8], n: u64)
    requires { length word.now ≤ 40 }
    ensures { line.new ≡ (word.now ++ decimal n) ++ 10 ∷ [] }
{
    line.clear();
    line.put(word);
    line.put_integer(n);
    line.put(b"\n");
}

/// Adds what stands before the events behind what waits: line 1 of a journal 1, the setup's text, the start.
fn write_opening<O: Sink>(
    w: &Workload,
    line: &mut Line,
    waiting: &mut Waiting,
    out: &mut O,
) -> Result<(), Failed>
    ensures ok { OnOk result (Adds (O.held out.old) (O.held out.new) waiting.old waiting.new (opening_text w.now)) }
    ensures err { OnErr result (AppendsPrefix (O.held out.old) (O.held out.new) (waiting.old ++ opening_text w.now)) }
    ensures kept_stays { O.kept out.new ≡ O.kept out.old }
    ensures cause { HasCause (O.Faulty.faults out.old) (O.Faulty.faults out.new) result }
{
    adding_laws();
    set_line(line, b"kact journal ", 1);
    match waiting.add(line.bytes(), out) {
        Ok(()) => {}
        Err(Failed) => return Err(Failed),
    }
    match waiting.add(w.setup.text.bytes(), out) {
        Ok(()) => {}
        Err(Failed) => return Err(Failed),
    }
    set_line(line, b"start ", w.start);
    waiting.add(line.bytes(), out)
}

/// Takes all events that are still to come, and adds a line for each behind what waits.
fn write_events<O: Sink>(
    schedule: &mut Schedule,
    line: &mut Line,
    waiting: &mut Waiting,
    out: &mut O,
) -> Result<(), Failed>
    requires { schedule.old.workload.until ≤ time_most }
    ensures ok { OnOk result (TakesAll schedule.old schedule.new (O.held out.old) (O.held out.new)
        waiting.old waiting.new) }
    ensures err { OnErr result (TakesSome schedule.old (O.held out.old) (O.held out.new) waiting.old) }
    ensures kept_stays { O.kept out.new ≡ O.kept out.old }
    ensures cause { HasCause (O.Faulty.faults out.old) (O.Faulty.faults out.new) result }
{
    schedule_laws();
    adding_laws();
    while let Some(e) = schedule.next() {
        event_line(&e, line);
        match waiting.add(line.bytes(), out) {
            Ok(()) => {}
            Err(Failed) => return Err(Failed),
        }
    }
    Ok(())
}

/// Writes the journal of a schedule that has made no event yet, or on `Failed` some first bytes of it.
fn write_all<O: Sink>(w: &Workload, schedule: &mut Schedule, out: &mut O) -> Result<(), Failed>
    requires good { IsWorkload w.now }
    requires workload { schedule.old.workload ≡ plain_of w.now }
    requires made { Made [] schedule.old }
    requires clock { schedule.old.revision.clock ≡ w.now.start }
    ensures ok { OnOk result (IsWritten w.now (O.held out.old) (O.held out.new) schedule.new.revision.events) }
    ensures err { OnErr result (IsBegun w.now (O.held out.old) (O.held out.new)) }
    ensures kept_stays { O.kept out.new ≡ O.kept out.old }
    ensures cause { HasCause (O.Faulty.faults out.old) (O.Faulty.faults out.new) result }
{
    schedule_laws();
    adding_laws();
    let mut line = Line::new();
    let mut waiting = Waiting::new();
    match write_opening(w, &mut line, &mut waiting, out) {
        Ok(()) => {}
        Err(Failed) => return Err(Failed),
    }
    match write_events(schedule, &mut line, &mut waiting, out) {
        Ok(()) => {}
        Err(Failed) => return Err(Failed),
    }
    match waiting.add(b"end\n", out) {
        Ok(()) => {}
        Err(Failed) => return Err(Failed),
    }
    waiting.flush(out)
}

/// What a schedule reads of a workload, lent.
fn view_of(w: &Workload) -> WorkloadView<'_>
    ensures { result ≡ plain_of w.now }
{
    WorkloadView::new(&w.setup.spec, w.start, w.boot, w.until, w.jobs.items())
}

/// Writes the journal of a workload's schedule: line 1 of a journal 1, the setup's text, the start, a line for each event
/// in order, and `end`. It answers how many events there are. On `Failed` some first bytes of that were written; all memory
/// is taken before the first byte.
pub fn simulate<O: Sink>(alloc: Global, w: &Workload, out: &mut O) -> Result<u64, SimError>
    requires { IsWorkload w.now }
    ensures written { IfOk result (λ count. IsWritten w.now (O.held out.old) (O.held out.new) count) }
    ensures begun { result ≡ Err SimError.Failed → IsBegun w.now (O.held out.old) (O.held out.new) }
    ensures memory { result ≡ Err SimError.Memory → out.new ≡ out.old }
    ensures fault { result ≡ Err SimError.Failed → Rose (O.Faulty.faults out.old) (O.Faulty.faults out.new) }
    ensures never_falls { O.Faulty.faults out.old ≤ O.Faulty.faults out.new }
    ensures kept_stays { O.kept out.new ≡ O.kept out.old }
{
    let mut schedule = match Schedule::new(alloc, view_of(w)) {
        Ok(schedule) => schedule,
        Err(Memory) => return Err(SimError::Memory),
    };
    match write_all(w, &mut schedule, out) {
        Ok(()) => Ok(schedule.events()),
        Err(Failed) => Err(SimError::Failed),
    }
}
