//! The faults of a server, told on an output: a line for each, ten a second at most, and then how many more there were.
#![tactic(auto)]

mod fault_log;
mod limiter;

pub use fault_log::{FaultLog, Party};
pub use limiter::{Limiter, MOST_A_SECOND};
