//! The lines of a decision in words.
#![tactic(auto)]

mod numbers;
mod reason;
mod words;

pub use numbers::{put_count, put_pods};
pub use reason::{Lever, Reason, Seats};
