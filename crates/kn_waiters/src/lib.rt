//! Which pass waits for which request, and whose wait the entries of an event end.
#![tactic(auto)]

mod waiters;

pub use waiters::{Waiter, Waiters};
