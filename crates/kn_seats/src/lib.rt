//! Which requests run and which are queued at each pod.
#![tactic(auto)]

mod cells;
mod seats;
mod tracker;

pub use seats::{Freed, Load, Seats};
