//! What stands before a text's own lines: its first line, which names its form, and the line of a setup, with its numbers.
#![tactic(auto)]

mod error;
mod first;
mod setting;

pub use error::SetupError;
pub use first::FirstLine;
pub use setting::{FixedLine, SetupLine, read_fixed_line, read_setup_line};
