//! What is counted of a revision: its rows by their kinds, and how many requests and pods there are of each sort.
#![tactic(auto)]

mod figures;
mod kind;
pub mod laws;
mod tally;

pub use figures::Figures;
pub use kind::Kind;
pub use tally::Tally;
