//! The activator's throttler: which requests are held, queued or running, at which pods, and what follows from that.
#![tactic(auto)]

mod candidates;
mod pods;
mod throttle;
mod touched;

pub use throttle::{Arrival, Dispatch, Throttle};
