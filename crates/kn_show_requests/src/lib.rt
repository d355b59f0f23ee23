//! One line of a run for each request: when it came, how it ended, where, and how long it waited and ran.
#![tactic(auto)]

pub mod laws;
mod requests;
mod told;

pub use requests::{Requests, RequestsForm};
