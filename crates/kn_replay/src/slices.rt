//! An input of several activators, replayed.
ghost use Rattle.std.specs.Prelude.{◌≡◌, ◌⊎◌, ◌+◌, ◌-◌, ◌≤◌};
ghost use Rattle.kn_io.specs.Causes.{Rose};
ghost use Rattle.kn_journal.specs.Reading.{most_taken};
ghost use Rattle.kn_replay.specs.Grouped.{ReplaysGroup};
ghost use Rattle.kn_replay.specs.Replaying.{IsReplayed};

use kn_activators::{GroupError, replay_slices};
use kn_follow::status_of;
use kn_io::{Sink, Source};
use kn_journal::Status;
use std::alloc::Global;

/// Replays an input of several activators, and writes their rows. All memory is taken before the first of them.
pub fn replay_group<S: Source, O: Sink>(alloc: Global, input: &mut S, out: &mut O) -> Status
    ensures report { ReplaysGroup (S.left input.old) (S.left input.new) (S.given input.new - S.given input.old) (O.held out.old) (O.held out.new) result }
    ensures replayed { IsReplayed result }
    ensures memory { result ≡ Status.Memory → out.new ≡ out.old }
    ensures read_fault { result ≡ Status.ReadFault → Rose (S.Faulty.faults input.old) (S.Faulty.faults input.new) ⊎ (S.given input.old + most_taken ≤ S.given input.new) }
    ensures write_fault { result ≡ Status.WriteFault → Rose (O.Faulty.faults out.old) (O.Faulty.faults out.new) }
{
    match replay_slices(alloc, input, out) {
        Ok(()) => Status::Ok,
        Err(GroupError::Input(e)) => status_of(e),
        Err(GroupError::Output) => Status::WriteFault,
    }
}
