//! What a workload has still to do, and the schedule of its events, in memory that is taken once.
#![tactic(auto)]

mod agenda;
mod item;
mod job;
mod laws;
mod nexts;
mod schedule;
mod workload;

pub use item::{Item, Kind};
pub use job::Job;
pub use laws::{schedule_laws, service_laws};
pub use schedule::Schedule;
pub use workload::WorkloadView;
