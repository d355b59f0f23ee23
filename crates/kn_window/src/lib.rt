//! The average load over a window of seconds, by a ring of running totals, one a second.
#![tactic(auto)]

mod laws;
mod totals;
mod window;

pub use laws::sample_laws;
pub use window::Window;
