//! The queue-proxy's breaker: who may enter, and how many of those who did may run.
#![tactic(auto)]

mod breaker;

pub use breaker::Breaker;
