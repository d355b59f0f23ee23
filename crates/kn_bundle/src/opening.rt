//! What stands before the events of a journal in a bundle.
ghost use Rattle.std.specs.Prelude.{◌≡◌, ◌≤◌, Err, IfOk, OnOk};
ghost use Rattle.kn_journal.specs.Calls.{ReadsTo};
ghost use Rattle.kn_journal.specs.Journal.{time_most};
ghost use Rattle.kn_follow.specs.Calls.{BreaksInput, DrawsInput};
ghost use Rattle.kn_bundle.specs.Calls.{IsBegun, IsWithin, OpensWithin};

use kn_io::Source;
use kn_journal::{JournalError, JournalReader, Setup, openings_are_whole, text_laws};
use std::alloc::Global;

/// Reads the setup and the start of a journal whose first line was taken.
pub fn open_journal<S: Source>(
    alloc: Global,
    reader: &mut JournalReader,
    source: &mut S,
) -> Result<(Setup, u64), JournalError>
    requires begun { IsBegun reader.old }
    ensures opens { OpensWithin reader.old reader.new S.Source.own source.old source.new result }
    ensures text { OnOk result (ReadsTo reader.old reader.new S.Source.own source.old source.new) }
    ensures start { IfOk result (λ parts. reader.new.last ≡ parts.1) }
    ensures most { IfOk result (λ parts. parts.1 ≤ time_most) }
    ensures within { OnOk result (IsWithin reader.new) }
    ensures grows { reader.old.input.taken ≤ reader.new.input.taken }
    ensures broken { result ≡ Err JournalError.ReadFault → BreaksInput reader.new S.Faulty source.old source.new }
    ensures draws { DrawsInput reader.old reader.new S.Source.own S.Faulty source.old source.new }
{
    openings_are_whole();
    text_laws();
    let setup = reader.setup(alloc, source)?;
    let start = reader.start(source)?;
    Ok((setup, start))
}
