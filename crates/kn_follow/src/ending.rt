//! How following a journal ends.
ghost use Rattle.std.specs.Prelude.{◌≡◌};
ghost use Rattle.kn_follow.specs.Endings.{IsReplayed, status_of};

use kn_journal::{JournalError, Status};

/// How it ends where an error of its reader ends it.
pub fn status_of(error: JournalError) -> Status
    ensures value { result ≡ status_of error }
    ensures replayed { IsReplayed result }
{
    match error {
        JournalError::ReadFault => Status::ReadFault,
        JournalError::Memory => Status::Memory,
        JournalError::BadFirstLine(due) => Status::BadSetup(JournalError::BadFirstLine(due)),
        JournalError::BadSetup(number, why) => Status::BadSetup(JournalError::BadSetup(
            number, why,
        )),
        _ => Status::BadInput(error),
    }
}
