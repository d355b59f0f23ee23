//! How a server that goes on ended.
ghost use Rattle.std.specs.Prelude.{◌≡◌};
ghost use Rattle.kn_stay.specs.Staying.{status_of_stayed};

use kn_journal::Status;

/// How it ended.
#[derive(Clone, Copy)]
pub enum Stayed {
    /// So.
    Ended(Status),
    /// The setup names so many pods, which are more than there are addresses. Nobody was served.
    TooManyPods(u64),
}

impl Stayed {
    /// The status of a program that ended so.
    pub fn status(&self) -> Status
        ensures { result ≡ status_of_stayed self.now }
    {
        match *self {
            Stayed::Ended(status) => status,
            Stayed::TooManyPods(_) => Status::Usage,
        }
    }
}
