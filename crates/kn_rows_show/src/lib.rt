//! Summaries of small runs, computed by the checker.
#![tactic(auto)]

pub mod fixed;
pub mod scaled;
