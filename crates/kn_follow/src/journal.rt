//! A journal that is followed, from its first byte to its last.
ghost use Rattle.std.specs.Prelude.{◌≡◌, ◌≤◌, Err, IfOk, OnOk, None, false};
ghost use Rattle.kn_io.specs.Causes.{Rose};
ghost use Rattle.kn_journal.specs.Calls.{ReadsTo};
ghost use Rattle.kn_journal.specs.Journal.{time_most};
ghost use Rattle.kn_journal.specs.Reading.{EndsThere};
ghost use Rattle.kn_follow.specs.Calls.{BreaksInput, DrawsInput, FailsSource, FollowsWhole, FollowsWholeCut, IsSound, OpensInput, RestOfOpening};
ghost use Rattle.kn_follow.specs.Endings.{IsRefusal, IsReplayed, LeavesBehind};

use crate::ending::status_of;
use crate::follower::Follower;
use kn_event::Memory;
use kn_io::{Failed, Sink, Source};
use kn_journal::{JournalError, JournalReader, Setup, Status, openings_are_whole, text_laws};
use kn_report::laws::adding_laws;
use kn_teller::{Form, Teller};
use std::alloc::Global;

/// Reads what stands before a journal's events: the setup, and the start.
fn open<S: Source>(
    alloc: Global,
    reader: &mut JournalReader,
    source: &mut S,
) -> Result<(Setup, u64), JournalError>
    requires good { reader.old.failed ≡ None }
    requires number { reader.old.number ≡ 0 }
    requires bundle { reader.old.bundle ≡ false }
    requires begun { reader.old.begun ≡ false }
    ensures opens { OpensInput reader.old reader.new S.Source.own source.old source.new result }
    ensures rest { RestOfOpening reader.old reader.new S.Source.own source.old source.new result }
    ensures text { OnOk result (ReadsTo reader.old reader.new S.Source.own source.old source.new) }
    ensures start { IfOk result (λ parts. reader.new.last ≡ parts.1) }
    ensures most { IfOk result (λ parts. parts.1 ≤ time_most) }
    ensures sound { OnOk result (IsSound reader.new) }
    ensures broken { result ≡ Err JournalError.ReadFault → BreaksInput reader.new S.Faulty source.old source.new }
    ensures draws { DrawsInput reader.old reader.new S.Source.own S.Faulty source.old source.new }
{
    openings_are_whole();
    text_laws();
    let setup = reader.setup(alloc, source)?;
    let start = reader.start(source)?;
    Ok((setup, start))
}

/// Reads a journal, and writes of its run what the form says: of its start, of each event, and at the end where all lines
/// are good. At the first line that is refused, what is told of the start and of all events before it was written. Where the
/// input failed, the lines that ended before that are good, and what is told of their events was written. Where writing
/// failed, some first bytes of it all were. All memory is taken before the first of them.
#[tactic(none)]
pub fn follow_journal<T: Teller + Drop, F: Form<T>, S: Source, O: Sink>(
    alloc: Global,
    form: &F,
    source: &mut S,
    out: &mut O,
) -> Status
    ensures report { FollowsWhole (F.writes form.now) S.Source.own O.Sink.own source.old source.new out.old out.new result }
    ensures replayed { IsReplayed result }
    ensures rest { IsRefusal result → LeavesBehind result (S.left source.old) (S.left source.new) }
    ensures cut { FollowsWholeCut (F.writes form.now) S.Source.own O.Sink.own source.old source.new out.old out.new result }
    ensures ended { result ≡ Status.Ok → EndsThere (S.left source.old) (S.left source.new) }
    ensures memory { result ≡ Status.Memory → out.new ≡ out.old }
    ensures read_fault { result ≡ Status.ReadFault → FailsSource S.Source.own S.Faulty source.old source.new }
    ensures write_fault { result ≡ Status.WriteFault → Rose (O.Faulty.faults out.old) (O.Faulty.faults out.new) }
    ensures never_falls { S.Faulty.faults source.old ≤ S.Faulty.faults source.new }
    ensures out_never_falls { O.Faulty.faults out.old ≤ O.Faulty.faults out.new }
{
    let mut reader = match JournalReader::new(alloc) {
        Ok(reader) => reader,
        Err(Memory) => return Status::Memory,
    };
    adding_laws();
    openings_are_whole();
    text_laws();
    let (setup, start) = match open(alloc, &mut reader, source) {
        Ok(parts) => parts,
        Err(error) => {
            let _few = reader.ahead_len();
            return status_of(error);
        }
    };
    let Setup { spec, text: _ } = setup;
    let mut teller = match form.make(alloc, &spec, start) {
        Ok(teller) => teller,
        Err(Memory) => return Status::Memory,
    };
    let mut follower = match Follower::new(alloc, spec, start) {
        Ok(follower) => follower,
        Err(Memory) => return Status::Memory,
    };
    match follower.tell_start(&mut teller, out) {
        Ok(()) => {}
        Err(Failed) => {
            let _few = reader.ahead_len();
            return Status::WriteFault;
        }
    }
    let status = follower.follow(&mut teller, &mut reader, source, out);
    let _few = reader.ahead_len();
    status
}
