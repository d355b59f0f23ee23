//! `kact_show`: a journal's requests, figures and course, written from the run that the journal replays to.
#![tactic(auto)]

mod command;
mod texts;

pub use command::show_run;
pub use kn_journal::Status;
pub use texts::tell;
