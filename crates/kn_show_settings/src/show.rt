//! The settings of a journal's setup, read and written.
ghost use Rattle.std.specs.Prelude.{◌≡◌, ◌≤◌};
ghost use Rattle.kn_io.specs.Causes.{Rose};
ghost use Rattle.kn_journal.specs.Status.{WritesNone};
ghost use Rattle.kn_follow.specs.Calls.{FailsSource};
ghost use Rattle.kn_follow.specs.Endings.{IsRefusal, IsReplayed, LeavesBehind};
ghost use Rattle.kn_show_settings.specs.Showing.{IsShown, LeavesOpening, ShowsInput};

use crate::settings::settings_text;
use kn_event::Memory;
use kn_follow::laws::{call_laws, ending_laws};
use kn_follow::status_of;
use kn_io::{Failed, Sink, Source, put_all};
use kn_journal::{JournalReader, Status};
use std::alloc::Global;

/// Reads the first line and the setup of a journal, and writes the settings. What stands behind the setup isn't judged, and at
/// most 65,536 bytes of it are read. Where a line is refused, where reading failed or memory is lacking, nothing was written.
/// Where writing failed, some first bytes were.
pub fn show_settings<S: Source, O: Sink>(alloc: Global, source: &mut S, out: &mut O) -> Status
    ensures shows { ShowsInput (S.left source.old) (O.held out.old) (O.held out.new) result }
    ensures replayed { IsReplayed result }
    ensures left { IsShown result → LeavesOpening (S.left source.old) (S.left source.new) }
    ensures rest { IsRefusal result → LeavesBehind result (S.left source.old) (S.left source.new) }
    ensures unshown { WritesNone result → out.new ≡ out.old }
    ensures read_fault { result ≡ Status.ReadFault → FailsSource S.Source.own S.Faulty source.old source.new }
    ensures write_fault { result ≡ Status.WriteFault → Rose (O.Faulty.faults out.old) (O.Faulty.faults out.new) }
    ensures never_falls { S.Faulty.faults source.old ≤ S.Faulty.faults source.new }
    ensures out_never_falls { O.Faulty.faults out.old ≤ O.Faulty.faults out.new }
{
    let mut reader = match JournalReader::new(alloc) {
        Ok(reader) => reader,
        Err(Memory) => return Status::Memory,
    };
    call_laws();
    ending_laws();
    let setup = match reader.setup(alloc, source) {
        Ok(setup) => setup,
        Err(error) => {
            let _few = reader.ahead_len();
            return status_of(error);
        }
    };
    let text = match settings_text(alloc, &setup) {
        Ok(text) => text,
        Err(Memory) => return Status::Memory,
    };
    let _few = reader.ahead_len();
    match put_all(out, text.as_slice()) {
        Ok(()) => Status::Ok,
        Err(Failed) => Status::WriteFault,
    }
}
