//! `kact`: from the bytes of a journal to the bytes of its report; journals that are generated, and those of workloads.
#![tactic(auto)]

mod bundle;
mod command;
mod first;
mod generate;
mod journal;
mod lawful;
mod rows;
mod simulate;
mod slices;
mod texts;

pub use command::{run, tell};
pub use kn_follow::status_of;
pub use kn_journal::{FirstLine, JournalError, SetupError, Status};
pub use texts::put_error;
