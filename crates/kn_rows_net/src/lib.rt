//! A net of small runs around the definitions of the plain machine: of each the lines of its report, what its events are
//! told, and where its requests stand. Beside them what some entries say, and what the policies choose of some pods. The
//! checker computes every contract from the definitions alone.
#![tactic(auto)]

pub mod admission;
pub mod choices;
pub mod counts;
pub mod draining;
pub mod entries;
pub mod lost;
pub mod scaling;
pub mod views;
