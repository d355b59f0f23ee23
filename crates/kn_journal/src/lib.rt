//! Journals, bundles of them and lists of setups, read, and journals written: their lines, setups, starts and events, and why one is
//! refused.
#![tactic(auto)]

mod bundle;
mod error;
mod first;
mod input;
mod journal;
mod laws;
mod lines;
mod listed;
mod parts;
mod reader;
mod setup;
mod status;
mod write;

pub use error::JournalError;
pub use journal::{Events, Journal, Opening, Setup, Setups};
pub use kn_preamble::{FirstLine, FixedLine, SetupError, read_fixed_line};
pub use laws::{journals_are_read, openings_are_whole, text_laws};
pub use parts::{Lines, TIME_MOST};
pub use reader::JournalReader;
pub use setup::read_opening;
pub use status::Status;
pub use write::write_journal;
