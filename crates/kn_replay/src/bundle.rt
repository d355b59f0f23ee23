//! A journal of a bundle that is replayed.
ghost use Rattle.std.specs.Prelude.{◌≡◌, ◌⊎◌, ◌+◌, ◌-◌, ◌≤◌};
ghost use Rattle.kn_io.specs.Causes.{Rose};
ghost use Rattle.kn_journal.specs.Reading.{most_taken};
ghost use Rattle.kn_replay.specs.Bundled.{ReplaysBundle};
ghost use Rattle.kn_replay.specs.Replaying.{EndsThere, IsReplayed};

use crate::rows::Report;
use kn_bundle::{accounts_are_same, follow_bundle};
use kn_io::{Sink, Source};
use kn_journal::Status;
use std::alloc::Global;

/// Replays journal k of the bundle that the source gives, counted from 0, and writes its report. Every line is judged, up to the
/// end of the input.
pub fn replay_bundle<S: Source, O: Sink>(
    alloc: Global,
    k: u64,
    source: &mut S,
    out: &mut O,
) -> Status
    ensures report { ReplaysBundle k (S.left source.old) (S.left source.new) (S.given source.new - S.given source.old) (O.held out.old) (O.held out.new) result }
    ensures replayed { IsReplayed result }
    ensures ended { result ≡ Status.Ok → EndsThere (S.left source.old) (S.left source.new) }
    ensures read_fault { result ≡ Status.ReadFault → Rose (S.Faulty.faults source.old) (S.Faulty.faults source.new) ⊎ (S.given source.old + most_taken ≤ S.given source.new) }
    ensures write_fault { result ≡ Status.WriteFault → Rose (O.Faulty.faults out.old) (O.Faulty.faults out.new) }
    ensures never_falls { S.Faulty.faults source.old ≤ S.Faulty.faults source.new }
    ensures out_never_falls { O.Faulty.faults out.old ≤ O.Faulty.faults out.new }
{
    accounts_are_same();
    follow_bundle(alloc, &Report, k, source, out)
}
