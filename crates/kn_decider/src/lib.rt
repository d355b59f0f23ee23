//! The decisions of one scaled revision: from the seconds that closed to the pods that are wanted.
#![tactic(auto)]

mod decider;
mod parts;

pub use decider::Decider;
