//! A journal that is replayed, from its first byte to its last.
ghost use Rattle.std.specs.Prelude.{◌≡◌, ◌⊎◌, ◌+◌, ◌-◌, ◌≤◌};
ghost use Rattle.kn_io.specs.Causes.{Rose};
ghost use Rattle.kn_journal.specs.Reading.{most_taken};
ghost use Rattle.kn_replay.specs.Replaying.{EndsThere, IsRefusal, IsReplayed, LeavesBehind, LeavesCut, Replays};

use crate::rows::Report;
use kn_follow::follow_journal;
use kn_follow::laws::account_laws;
use kn_io::{Sink, Source};
use kn_journal::Status;
use std::alloc::Global;

/// Replays the journal that the source gives, and writes its report.
pub fn replay_journal<S: Source, O: Sink>(alloc: Global, source: &mut S, out: &mut O) -> Status
    ensures report { Replays (S.left source.old) (S.left source.new) (S.given source.new - S.given source.old) (O.held out.old) (O.held out.new) result }
    ensures replayed { IsReplayed result }
    ensures rest { IsRefusal result → LeavesBehind result (S.left source.old) (S.left source.new) }
    ensures cut { result ≡ Status.WriteFault → LeavesCut (S.left source.old) (S.left source.new) (O.held out.old) (O.held out.new) }
    ensures ended { result ≡ Status.Ok → EndsThere (S.left source.old) (S.left source.new) }
    ensures memory { result ≡ Status.Memory → out.new ≡ out.old }
    ensures read_fault { result ≡ Status.ReadFault → Rose (S.Faulty.faults source.old) (S.Faulty.faults source.new) ⊎ (S.given source.old + most_taken ≤ S.given source.new) }
    ensures write_fault { result ≡ Status.WriteFault → Rose (O.Faulty.faults out.old) (O.Faulty.faults out.new) }
    ensures never_falls { S.Faulty.faults source.old ≤ S.Faulty.faults source.new }
    ensures out_never_falls { O.Faulty.faults out.old ≤ O.Faulty.faults out.new }
{
    account_laws();
    follow_journal(alloc, &Report, source, out)
}
