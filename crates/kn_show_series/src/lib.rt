//! The form `series` of `kact_show`: a line of CSV for each step in which something happened, and for the next one.
#![tactic(auto)]

mod counts;
mod current;
mod gauges;
pub mod laws;
mod series;

pub use series::{Series, SeriesForm};
