//! What a workload does to a revision: the schedule of its events, written as a journal.
#![tactic(auto)]

mod line;
mod print;
mod read;
mod workload;

pub use kn_agenda::Job;
pub use print::{SimError, simulate};
pub use read::read_workload;
pub use workload::{Jobs, Workload};
