use kn_journal::JournalError;

/// Why an input of several activators wasn't replayed to its end.
#[derive(Clone, Copy)]
pub enum GroupError {
    /// A line was refused, or reading failed; or memory is wanting, and then nothing was written.
    Input(JournalError),
    /// Writing failed.
    Output,
}
