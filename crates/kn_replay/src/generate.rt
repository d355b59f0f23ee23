//! A generated journal whose revision is stepped through.
ghost use Rattle.std.specs.Prelude.{◌≡◌, ◌≢◌, ◌≤◌};
ghost use Rattle.kn_io.specs.Causes.{Rose};
ghost use Rattle.kn_replay.specs.Generating.{Generates};
ghost use Rattle.kn_replay.specs.Replaying.{IsReplayed};

use kn_core::Revision;
use kn_event::{EntryLog, Line, Memory};
use kn_generate::{Events, generated_spec};
use kn_io::{Failed, Sink, put_all};
use kn_journal::Status;
use kn_report::Tally;
use std::alloc::Global;

/// Steps through the journal of this seed and so many events, and writes the last line of its report.
pub fn generate<O: Sink>(alloc: Global, seed: u64, count: u64, out: &mut O) -> Status
    requires { count ≤ 1000000 }
    ensures generates { Generates seed count (O.held out.old) (O.held out.new) result }
    ensures replayed { IsReplayed result }
    ensures reads_nothing { result ≢ Status.ReadFault }
    ensures memory { result ≡ Status.Memory → out.new ≡ out.old }
    ensures write_fault { result ≡ Status.WriteFault → Rose (O.Faulty.faults out.old) (O.Faulty.faults out.new) }
{
    let spec = match generated_spec(alloc) {
        Ok(spec) => spec,
        Err(Memory) => return Status::Memory,
    };
    let mut log = match EntryLog::new(alloc) {
        Ok(log) => log,
        Err(Memory) => return Status::Memory,
    };
    let mut revision = match Revision::new(alloc, spec, 0, &mut log) {
        Ok(revision) => revision,
        Err(Memory) => return Status::Memory,
    };
    let mut tally = Tally::new();
    tally.add_all(&log);
    let mut events = Events::new(seed);
    for _ in 0..count {
        log.clear();
        revision.take(&events.next(), &mut log);
        tally.add_all(&log);
    }
    let mut line = Line::new();
    tally.last_line(1, count, &mut line);
    match put_all(out, line.bytes()) {
        Ok(()) => Status::Ok,
        Err(Failed) => Status::WriteFault,
    }
}
