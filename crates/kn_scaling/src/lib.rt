//! What a scaling decision is: definitions over plain arguments, which say nothing of a trace, and the types that
//! they speak of. `rows` has worked rows, which the checker computes.
#![tactic(auto)]

mod average;
mod delay;
mod panic;
pub mod rows;
mod zero;

pub use average::{SampleRun, load_over};
pub use delay::Asked;
pub use panic::Judged;
pub use zero::{Standing, ZeroAnswer, bounded_count};
