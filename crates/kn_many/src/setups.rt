//! The setups of a session over several revisions.
ghost use Rattle.std.specs.Prelude.{◌≡◌, ◌≤◌, Err, IfOk, OnOk, length};
ghost use Rattle.kn_journal.specs.Bundle.{AreSetups};
ghost use Rattle.kn_journal.specs.Reading.{EndsThere};
ghost use Rattle.kn_serve.specs.Setup.{HasBrokenOff};
ghost use Rattle.kn_many.specs.Setups.{SaysSetups};

use kn_event::Memory;
use kn_io::Source;
use kn_journal::{JournalError, JournalReader, Setups};
use kn_serve::wide_laws;
use std::alloc::Global;

/// Reads so many setups of different revisions: `kact setups 1`, the setups, and then the end of the input.
pub fn read_setups<S: Source>(
    alloc: Global,
    source: &mut S,
    count: u64,
) -> Result<Setups, JournalError>
    ensures says { SaysSetups count (S.left source.old) result }
    ensures kept { IfOk result AreSetups }
    ensures many { IfOk result (λ setups. length setups ≡ count) }
    ensures whole { OnOk result (EndsThere (S.left source.old) (S.left source.new)) }
    ensures fault { result ≡ Err JournalError.ReadFault → HasBrokenOff S.Faulty.faults S.given source }
    ensures never_falls { S.Faulty.faults source.old ≤ S.Faulty.faults source.new }
{
    wide_laws();
    let mut reader = match JournalReader::new(alloc) {
        Ok(reader) => reader,
        Err(Memory) => return Err(JournalError::Memory),
    };
    reader.setups(alloc, source, count)
}
