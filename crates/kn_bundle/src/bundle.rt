//! A bundle that is read from its first byte to its last.
ghost use Rattle.std.specs.Prelude.{◌≡◌, ◌≢◌, ◌≤◌, None, nat_lt};
ghost use Rattle.kn_io.specs.Causes.{Rose};
ghost use Rattle.kn_journal.specs.Reading.{EndsThere};
ghost use Rattle.kn_follow.specs.Calls.{FailsSource};
ghost use Rattle.kn_follow.specs.Endings.{IsReplayed};
ghost use Rattle.kn_bundle.specs.Calls.{FollowsAll};
ghost use Rattle.kn_bundle.specs.Following.{end_by};

use crate::journal::read_journal;
use kn_event::Memory;
use kn_follow::laws::{call_laws, ending_laws};
use kn_follow::status_of;
use kn_io::{Sink, Source};
use kn_journal::{JournalError, JournalReader, Status, text_laws};
use kn_report::laws::adding_laws;
use kn_teller::{Form, Teller};
use std::alloc::Global;

/// How a bundle ends in which all lines are good, and so many journals are.
fn ending(count: u64, k: u64) -> Status
    ensures value { result ≡ end_by None (nat_lt k count) }
    ensures replayed { IsReplayed result }
    ensures reads { result ≢ Status.ReadFault }
    ensures writes { result ≢ Status.WriteFault }
{
    if k < count {
        Status::Ok
    } else {
        Status::BadInput(JournalError::NoEnd)
    }
}

/// Reads journals one after the other, each with its first line, and writes of the run of journal k, counted from 0, what the
/// form says: of its start, of each event as it is read, and what stands at its end once its `end` was read. Of the other
/// journals nothing is written, and no revision is made for them. Every line is judged, up to the end of the input: the first
/// refused line ends it. Where there is no journal k, it is `NoEnd`.
///
/// Memory is taken for each journal's setup, and for journal k's revision before the first byte of it is written; so it may
/// be lacking behind what was written of journal k. Where the input failed, the lines that ended before that are good, and
/// what is told of journal k in them was written. Where writing failed, some first bytes were.
pub fn follow_bundle<T: Teller + Drop, F: Form<T>, S: Source, O: Sink>(
    alloc: Global,
    form: &F,
    k: u64,
    source: &mut S,
    out: &mut O,
) -> Status
    ensures bundle { FollowsAll (F.writes form.now) k S.Source.own O.Sink.own source.old source.new out.old out.new result }
    ensures replayed { IsReplayed result }
    ensures ended { result ≡ Status.Ok → EndsThere (S.left source.old) (S.left source.new) }
    ensures read_fault { result ≡ Status.ReadFault → FailsSource S.Source.own S.Faulty source.old source.new }
    ensures write_fault { result ≡ Status.WriteFault → Rose (O.Faulty.faults out.old) (O.Faulty.faults out.new) }
    ensures never_falls { S.Faulty.faults source.old ≤ S.Faulty.faults source.new }
    ensures out_never_falls { O.Faulty.faults out.old ≤ O.Faulty.faults out.new }
{
    let mut reader = match JournalReader::new(alloc) {
        Ok(reader) => reader,
        Err(Memory) => return Status::Memory,
    };
    text_laws();
    adding_laws();
    call_laws();
    ending_laws();
    // Each journal takes a byte at least, so before so many 2^56 bytes were taken.
    for count in 0..1u64 << 57 {
        match reader.part(source) {
            Ok(true) => {}
            Ok(false) => return ending(count, k),
            Err(error) => return status_of(error),
        }
        match read_journal(alloc, form, count == k, &mut reader, source, out) {
            Status::Ok => {}
            status => return status,
        }
    }
    Status::ReadFault
}
