//! The scribe of a server that goes on: prints the rows of a lasting cell as they come.
#![tactic(auto)]

mod doors;
mod round;
mod scribe;

pub use doors::Doors;
pub use scribe::{Scribe, rows_for};
