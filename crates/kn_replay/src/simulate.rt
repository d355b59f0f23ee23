//! A workload whose schedule is written as a journal.
ghost use Rattle.std.specs.Prelude.{◌≡◌, ◌⊎◌, ◌+◌, ◌≤◌};
ghost use Rattle.kn_io.specs.Causes.{Rose};
ghost use Rattle.kn_journal.specs.Reading.{most_taken};
ghost use Rattle.kn_journal.specs.Status.{WritesNone};
ghost use Rattle.kn_replay.specs.Replaying.{IsReplayed};
ghost use Rattle.kn_replay.specs.Simulating.{Simulates};

use kn_follow::status_of;
use kn_io::{Sink, Source};
use kn_journal::{Status, journals_are_read};
use kn_sim::{SimError, read_workload, simulate};
use std::alloc::Global;

/// Reads a workload to its end, and then writes the journal of its schedule. Nothing is written of one that is refused.
pub fn simulate_input<S: Source, O: Sink>(alloc: Global, input: &mut S, out: &mut O) -> Status
    ensures simulates { Simulates (S.left input.old) (O.held out.old) (O.held out.new) result }
    ensures unwritten { WritesNone result → out.new ≡ out.old }
    ensures replayed { IsReplayed result }
    ensures read_fault { result ≡ Status.ReadFault → Rose (S.Faulty.faults input.old) (S.Faulty.faults input.new) ⊎ (S.given input.old + most_taken ≤ S.given input.new) }
    ensures write_fault { result ≡ Status.WriteFault → Rose (O.Faulty.faults out.old) (O.Faulty.faults out.new) }
{
    journals_are_read();
    let workload = match read_workload(alloc, input) {
        Ok(workload) => workload,
        Err(e) => return status_of(e),
    };
    match simulate(alloc, &workload, out) {
        Ok(_) => Status::Ok,
        Err(SimError::Failed) => Status::WriteFault,
        Err(SimError::Memory) => Status::Memory,
    }
}
