//! The events of a journal in a bundle, up to its `end`.
ghost use Rattle.std.specs.Prelude.{◌≡◌, ◌≢◌, ◌≤◌, ◌<◌, ◌^◌};
ghost use Rattle.kn_core.specs.State.{StandsFor};
ghost use Rattle.kn_journal.specs.Calls.{ReadsTo};
ghost use Rattle.kn_teller.specs.Run.{trace};
ghost use Rattle.kn_follow.specs.Calls.{BreaksInput, DrawsInput, IsCaused, run_from};
ghost use Rattle.kn_follow.specs.Endings.{IsFollowed};
ghost use Rattle.kn_bundle.specs.Calls.{FindsNextOf, FollowsEventsOf, IsReadyFor, IsWithin, SkipsEvents};

use kn_event::Event;
use kn_follow::laws::{call_laws, ending_laws, telling_laws};
use kn_follow::{Follower, status_of};
use kn_io::{Failed, Sink, Source};
use kn_journal::{JournalError, JournalReader, Status, text_laws};
use kn_report::laws::adding_laws;
use kn_teller::Teller;

/// Reads the next event, or none at `end`. A source that said its end isn't read again.
fn next_event<S: Source>(
    reader: &mut JournalReader,
    source: &mut S,
) -> Result<Option<Event>, JournalError>
    requires within { IsWithin reader.old }
    ensures next { FindsNextOf reader.old reader.new S.Source.own S.Faulty source.old source.new result }
    ensures version { reader.new.version ≡ reader.old.version }
    ensures draws { DrawsInput reader.old reader.new S.Source.own S.Faulty source.old source.new }
    ensures grows { reader.old.input.taken ≤ reader.new.input.taken }
{
    text_laws();
    if reader.is_cut() {
        return Err(JournalError::NoEnd);
    }
    reader.next(source)
}

/// Reads the events and `end` of a journal of which nothing is written. `Ok` says that `end` was read.
pub fn skip_events<S: Source>(reader: &mut JournalReader, source: &mut S) -> Status
    requires within { IsWithin reader.old }
    ensures skips { SkipsEvents reader.old reader.new S.Source.own source.old source.new result }
    ensures followed { IsFollowed result }
    ensures writes_nothing { result ≢ Status.WriteFault }
    ensures text { result ≡ Status.Ok → ReadsTo reader.old reader.new S.Source.own source.old source.new }
    ensures within { result ≡ Status.Ok → IsWithin reader.new }
    ensures broken { result ≡ Status.ReadFault → BreaksInput reader.new S.Faulty source.old source.new }
    ensures draws { DrawsInput reader.old reader.new S.Source.own S.Faulty source.old source.new }
    ensures grows { reader.old.input.taken ≤ reader.new.input.taken }
{
    text_laws();
    adding_laws();
    call_laws();
    ending_laws();
    // Each event takes six bytes at least, so after so many 2^56 bytes were taken.
    for _count in 0..1u64 << 54 {
        match next_event(reader, source) {
            Ok(Some(_)) => {}
            Ok(None) => return Status::Ok,
            Err(error) => return status_of(error),
        }
    }
    Status::ReadFault
}

/// Takes the events and `end` of a journal, and has the teller tell of each. What waits is written before the source is read
/// again, and before the answer. `Ok` says that `end` was read.
pub fn follow_events<T: Teller, S: Source, O: Sink>(
    follower: &mut Follower,
    teller: &mut T,
    reader: &mut JournalReader,
    source: &mut S,
    out: &mut O,
) -> Status
    requires ready { IsReadyFor follower.old.revision reader.old }
    requires stands { StandsFor follower.old.revision (trace (run_from follower.old.revision)) }
    requires knows { T.knows teller.old (run_from follower.old.revision) }
    requires load { T.load teller.old < 2 ^ 64 }
    ensures follows { FollowsEventsOf (T.manner teller.old) follower.old reader.old reader.new S.Source.own O.Sink.own
        source.old source.new out.old out.new result }
    ensures followed { IsFollowed result }
    ensures text { result ≡ Status.Ok → ReadsTo reader.old reader.new S.Source.own source.old source.new }
    ensures within { result ≡ Status.Ok → IsWithin reader.new }
    ensures broken { result ≡ Status.ReadFault → BreaksInput reader.new S.Faulty source.old source.new }
    ensures draws { DrawsInput reader.old reader.new S.Source.own S.Faulty source.old source.new }
    ensures grows { reader.old.input.taken ≤ reader.new.input.taken }
    ensures cause { IsCaused (O.Faulty.faults out.old) (O.Faulty.faults out.new) result }
{
    text_laws();
    adding_laws();
    telling_laws();
    call_laws();
    ending_laws();
    // Each event takes six bytes at least, so after so many 2^56 bytes were taken.
    for count in 0..1u64 << 54 {
        match follower.write_unless(reader.holds_line(), out) {
            Ok(()) => {}
            Err(Failed) => return Status::WriteFault,
        }
        let e = match next_event(reader, source) {
            Ok(Some(e)) => e,
            Ok(None) => return follower.end(teller, reader.version(), count, out),
            Err(error) => return follower.stop(status_of(error), out),
        };
        match follower.take(teller, &e, out) {
            Ok(()) => {}
            Err(Failed) => return Status::WriteFault,
        }
    }
    follower.stop(Status::ReadFault, out)
}
