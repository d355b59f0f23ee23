//! The first line of an input, judged by the form that is due.
ghost use Rattle.std.specs.Prelude.{◌≤◌, IfOk};
ghost use Rattle.kn_preamble.specs.First.{version_most};
ghost use Rattle.kn_journal.specs.Journal.{first_in};
ghost use Rattle.kn_journal.specs.Telling.{Judges};

use crate::error::JournalError;
use kn_preamble::FirstLine;

/// The version that the line of this number names.
pub fn judge_first(line: &[u8], number: u64, first: FirstLine) -> Result<u64, JournalError>
    ensures judges { Judges (first_in first) number line.now result }
    ensures least { IfOk result (λ version. 1 ≤ version) }
    ensures most { IfOk result (λ version. version ≤ version_most first) }
{
    match first.version(line) {
        Some(version) => Ok(version),
        None => Err(JournalError::BadFirstLine(first)),
    }
}
