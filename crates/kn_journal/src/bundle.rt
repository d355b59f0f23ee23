//! Where the next journal of a bundle begins: its first line, and then its setup.
ghost use Rattle.std.specs.Prelude.{◌≡◌, ◌≢◌, ◌≤◌, ◌<◌, Contains, Err, IfOk, Ok, OnOk, Some, true};
ghost use Rattle.kn_journal.specs.LineCalls.{DrawsBy, DrawsIn, RestOfFirst, TakesLines, TellsPart};
ghost use Rattle.kn_journal.specs.Bundle.{first_of_in, first_of_part, opening_by};
ghost use Rattle.kn_journal.specs.Journal.{IsSetup};
ghost use Rattle.kn_journal.specs.Reading.{TakesPart, most_taken};
ghost use Rattle.kn_journal.specs.Telling.{Judges, OnFirst, none_at_end};

use crate::error::JournalError;
use kn_preamble::FirstLine;
use crate::journal::Opening;
use crate::parts::Lines;
use crate::setup::{read_opening, read_setup};
use kn_io::Source;
use std::alloc::Global;

/// The version that the line of this number names, where a journal's first line is due: as line 1, or behind an `end`.
fn judge_first_of(line: &[u8], number: u64) -> Result<Option<u64>, JournalError>
    ensures judges { Judges first_of_in number line.now result }
    ensures least { OnFirst result (λ version. 1 ≤ version) }
    ensures most { OnFirst result (λ version. version ≤ 2) }
{
    match FirstLine::Journal.version(line) {
        Some(version) => Ok(Some(version)),
        None => if number == 1 {
            Err(JournalError::BadFirstLine(FirstLine::Journal))
        } else {
            Err(JournalError::AfterEnd(number))
        },
    }
}

/// What it is where no line could be read: at the end of the input no journal follows.
fn none_at_end(e: JournalError) -> Result<Option<u64>, JournalError>
    ensures { result ≡ none_at_end e }
{
    match e {
        JournalError::NoEnd => Ok(None),
        _ => Err(e),
    }
}

/// Reads the first line of a bundle's next journal, and answers the version that it names, or none where the input ends there.
pub fn read_first_of<S: Source>(
    lines: &mut Lines,
    source: &mut S,
) -> Result<Option<u64>, JournalError>
    ensures tells { TellsPart first_of_part lines.old lines.new S.Source.own source.old source.new result }
    ensures rest { RestOfFirst first_of_part lines.old lines.new S.Source.own source.old source.new result }
    ensures text { OnFirst result (λ version. TakesLines lines.old lines.new S.Source.own source.old source.new) }
    ensures least { OnFirst result (λ version. 1 ≤ version) }
    ensures most { OnFirst result (λ version. version ≤ 2) }
    ensures bytes { OnFirst result (λ version. lines.old.input.taken < lines.new.input.taken) }
    ensures memory { result ≢ Err JournalError.Memory }
    ensures source { DrawsBy TakesPart lines.old lines.new S.Source.own S.Faulty source.old source.new result }
    ensures ready { Contains lines.old.input.ahead 10 → source.new ≡ source.old }
    ensures few { lines.new.input.taken ≤ most_taken }
{
    match lines.next_line(source) {
        Ok(()) => judge_first_of(lines.line(), lines.number()),
        Err(e) => none_at_end(e),
    }
}

/// Reads a setup behind a first line of this version, or a first line of a journal and then a setup.
pub fn read_opening_by<S: Source>(
    alloc: Global,
    lines: &mut Lines,
    source: &mut S,
    begun: bool,
    version: u64,
) -> Result<Opening, JournalError>
    requires least { 1 ≤ version }
    requires most { version ≤ 2 }
    ensures kept { IfOk result (λ opening. IsSetup opening.setup) }
    ensures tells { TellsPart (opening_by begun version) lines.old lines.new S.Source.own source.old source.new result }
    ensures text { OnOk result (TakesLines lines.old lines.new S.Source.own source.old source.new) }
    ensures rest { RestOfFirst (opening_by begun version) lines.old lines.new S.Source.own source.old source.new result }
    ensures source { DrawsIn (opening_by begun version) lines.old lines.new S.Source.own S.Faulty source.old source.new result }
    ensures least { IfOk result (λ opening. 1 ≤ opening.version) }
    ensures most { IfOk result (λ opening. opening.version ≤ 2) }
    ensures same { begun ≡ true → IfOk result (λ opening. opening.version ≡ version) }
{
    if !begun {
        return read_opening(alloc, lines, source, FirstLine::Journal);
    }
    match read_setup(alloc, lines, source) {
        Ok(setup) => Ok(Opening { version, setup }),
        Err(e) => Err(e),
    }
}
