//! The summary of a run: counts, waiting times, cold starts, and what the pods cost.
#![tactic(auto)]

mod counts;
pub mod laws;
mod lines;
mod rows;
mod summary;

pub use summary::{Summary, SummaryForm};
