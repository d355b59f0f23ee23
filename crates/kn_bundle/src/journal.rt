//! One journal of a bundle, behind its first line.
ghost use Rattle.std.specs.Prelude.{◌≡◌, ◌≢◌, ◌≤◌, false};
ghost use Rattle.kn_journal.specs.Calls.{ReadsTo};
ghost use Rattle.kn_follow.specs.Calls.{BreaksInput, DrawsInput, IsCaused};
ghost use Rattle.kn_follow.specs.Endings.{IsReplayed};
ghost use Rattle.kn_bundle.specs.Calls.{FollowsChosen, FollowsOne, IsBegun, IsWithin, SkipsOne};

use crate::events::{follow_events, skip_events};
use crate::opening::open_journal;
use kn_event::Memory;
use kn_follow::{Follower, status_of};
use kn_io::{Failed, Sink, Source};
use kn_journal::{JournalReader, Setup, Status, openings_are_whole, text_laws};
use kn_report::laws::adding_laws;
use kn_teller::{Form, Teller};
use std::alloc::Global;

/// Reads a journal of which nothing is written: no revision is made for it. `Ok` says that its `end` was read.
fn skip_journal<S: Source>(alloc: Global, reader: &mut JournalReader, source: &mut S) -> Status
    requires begun { IsBegun reader.old }
    ensures skips { SkipsOne reader.old reader.new S.Source.own source.old source.new result }
    ensures replayed { IsReplayed result }
    ensures writes_nothing { result ≢ Status.WriteFault }
    ensures text { result ≡ Status.Ok → ReadsTo reader.old reader.new S.Source.own source.old source.new }
    ensures within { result ≡ Status.Ok → IsWithin reader.new }
    ensures grows { reader.old.input.taken ≤ reader.new.input.taken }
    ensures broken { result ≡ Status.ReadFault → BreaksInput reader.new S.Faulty source.old source.new }
    ensures draws { DrawsInput reader.old reader.new S.Source.own S.Faulty source.old source.new }
{
    openings_are_whole();
    text_laws();
    adding_laws();
    let (setup, _start) = match open_journal(alloc, reader, source) {
        Ok(parts) => parts,
        Err(error) => return status_of(error),
    };
    let Setup { spec: _, text: _ } = setup;
    skip_events(reader, source)
}

/// Reads a journal, and writes of its run what the form says. All memory is taken before the first of it. `Ok` says that its
/// `end` was read, and then all of it was written.
fn follow_one<T: Teller + Drop, F: Form<T>, S: Source, O: Sink>(
    alloc: Global,
    form: &F,
    reader: &mut JournalReader,
    source: &mut S,
    out: &mut O,
) -> Status
    requires begun { IsBegun reader.old }
    ensures follows { FollowsOne (F.writes form.now) reader.old reader.new S.Source.own O.Sink.own
        source.old source.new out.old out.new result }
    ensures replayed { IsReplayed result }
    ensures text { result ≡ Status.Ok → ReadsTo reader.old reader.new S.Source.own source.old source.new }
    ensures within { result ≡ Status.Ok → IsWithin reader.new }
    ensures grows { reader.old.input.taken ≤ reader.new.input.taken }
    ensures broken { result ≡ Status.ReadFault → BreaksInput reader.new S.Faulty source.old source.new }
    ensures draws { DrawsInput reader.old reader.new S.Source.own S.Faulty source.old source.new }
    ensures cause { IsCaused (O.Faulty.faults out.old) (O.Faulty.faults out.new) result }
{
    openings_are_whole();
    text_laws();
    adding_laws();
    let (setup, start) = match open_journal(alloc, reader, source) {
        Ok(parts) => parts,
        Err(error) => return status_of(error),
    };
    let Setup { spec, text: _ } = setup;
    let mut teller = match form.make(alloc, &spec, start) {
        Ok(teller) => teller,
        Err(Memory) => return Status::Memory,
    };
    let mut follower = match Follower::new(alloc, spec, start) {
        Ok(follower) => follower,
        Err(Memory) => return Status::Memory,
    };
    match follower.tell_start(&mut teller, out) {
        Ok(()) => {}
        Err(Failed) => return Status::WriteFault,
    }
    follow_events(&mut follower, &mut teller, reader, source, out)
}

/// Reads a journal, and writes of it where it is the one that is wanted.
pub fn read_journal<T: Teller + Drop, F: Form<T>, S: Source, O: Sink>(
    alloc: Global,
    form: &F,
    wanted: bool,
    reader: &mut JournalReader,
    source: &mut S,
    out: &mut O,
) -> Status
    requires begun { IsBegun reader.old }
    ensures follows { FollowsChosen wanted (F.writes form.now) reader.old reader.new S.Source.own O.Sink.own
        source.old source.new out.old out.new result }
    ensures unwritten { wanted ≡ false → result ≢ Status.WriteFault }
    ensures replayed { IsReplayed result }
    ensures text { result ≡ Status.Ok → ReadsTo reader.old reader.new S.Source.own source.old source.new }
    ensures within { result ≡ Status.Ok → IsWithin reader.new }
    ensures grows { reader.old.input.taken ≤ reader.new.input.taken }
    ensures broken { result ≡ Status.ReadFault → BreaksInput reader.new S.Faulty source.old source.new }
    ensures draws { DrawsInput reader.old reader.new S.Source.own S.Faulty source.old source.new }
    ensures cause { IsCaused (O.Faulty.faults out.old) (O.Faulty.faults out.new) result }
{
    if wanted {
        follow_one(alloc, form, reader, source, out)
    } else {
        skip_journal(alloc, reader, source)
    }
}
