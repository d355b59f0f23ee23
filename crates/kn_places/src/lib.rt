//! Where live requests are: what a row of a trace changes of what is measured of them, and that it may.
#![tactic(auto)]

pub mod laws;
mod rows;

pub use rows::change_of;
