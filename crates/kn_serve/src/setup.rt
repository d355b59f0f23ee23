//! The setup of a session.
ghost use Rattle.std.specs.Prelude.{◌≡◌, ◌≤◌, Err, IfOk, OnOk};
ghost use Rattle.kn_journal.specs.Journal.{IsSetup};
ghost use Rattle.kn_journal.specs.Reading.{EndsThere};
ghost use Rattle.kn_serve.specs.Front.{SaysFront};
ghost use Rattle.kn_serve.specs.Setup.{HasBrokenOff, SaysSetup};

use kn_event::Memory;
use kn_io::Source;
use kn_journal::{JournalError, JournalReader, Setup};
use std::alloc::Global;

/// Reads a setup that stands alone: a journal's lines before its start, and then the end of the input.
pub fn read_setup<S: Source>(alloc: Global, source: &mut S) -> Result<Setup, JournalError>
    ensures says { SaysSetup (S.left source.old) result }
    ensures kept { IfOk result IsSetup }
    ensures whole { OnOk result (EndsThere (S.left source.old) (S.left source.new)) }
    ensures fault { result ≡ Err JournalError.ReadFault → HasBrokenOff S.Faulty.faults S.given source }
    ensures never_falls { S.Faulty.faults source.old ≤ S.Faulty.faults source.new }
{
    let mut reader = match JournalReader::new(alloc) {
        Ok(reader) => reader,
        Err(Memory) => return Err(JournalError::Memory),
    };
    let setup = reader.setup(alloc, source)?;
    match reader.finish_setup(source) {
        Ok(()) => Ok(setup),
        Err(error) => Err(error),
    }
}

/// Reads a journal's lines before its start, and no line behind the setup's last one. What was read of the source behind that line is dropped.
pub fn read_front<S: Source>(alloc: Global, source: &mut S) -> Result<Setup, JournalError>
    ensures says { SaysFront (S.left source.old) result }
    ensures kept { IfOk result IsSetup }
    ensures fault { result ≡ Err JournalError.ReadFault → HasBrokenOff S.Faulty.faults S.given source }
    ensures never_falls { S.Faulty.faults source.old ≤ S.Faulty.faults source.new }
{
    let mut reader = match JournalReader::new(alloc) {
        Ok(reader) => reader,
        Err(Memory) => return Err(JournalError::Memory),
    };
    reader.setup(alloc, source)
}
