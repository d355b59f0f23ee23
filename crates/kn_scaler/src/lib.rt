//! The autoscaler of one scaled revision: what is measured of its trace, and what is decided of it.
#![tactic(auto)]

mod facts;
pub mod laws;
mod scaler;

pub use scaler::{Ruled, Scaler};
