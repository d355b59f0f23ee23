//! What each live request came with, and what has come of it: all that a row at its end has to say.
#![tactic(auto)]

mod hints;
pub mod laws;
mod lives;
mod slots;

pub use lives::{Life, Lives, arrival_tag};
