//! Numbers and durations as a ConfigMap writes them, and rounded quotients.
#![tactic(auto)]

mod duration;
mod error;
mod number;
mod quotient;

pub use duration::{durations_are_spelled, read_duration_ms};
pub use error::NumError;
pub use number::{numbers_are_spelled, read_milli, read_whole};
pub use quotient::{ceil_div, floor_div};
