ghost use Rattle.std.specs.Prelude.{◌≡◌};
ghost use Rattle.kn_journal.specs.Status.{code_of};

use crate::error::JournalError;

/// How a command ended.
#[derive(Clone, Copy)]
pub enum Status {
    /// The input was read to its end, and everything was written.
    Ok,
    /// The words are no command.
    Usage,
    BadInput(JournalError),
    BadSetup(JournalError),
    ReadFault,
    WriteFault,
    Memory,
    /// The least slot with a round that ended in a fault of its caller or its link.
    SlotFault(u64),
    /// The address can't be listened on.
    ListenFault,
}

impl Status {
    /// The exit status of a program that ended so.
    pub fn code(&self) -> u8
        ensures { result ≡ code_of self.now }
    {
        match *self {
            Status::Ok => 0,
            Status::Usage => 2,
            Status::BadInput(_) => 3,
            Status::BadSetup(_) => 4,
            Status::ReadFault => 5,
            Status::WriteFault => 6,
            Status::Memory => 7,
            Status::SlotFault(_) => 8,
            Status::ListenFault => 9,
        }
    }
}
