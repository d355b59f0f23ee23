//! The journal that a seed generates: its revision and its events.
#![tactic(auto)]

mod events;

pub use events::{Events, generated_spec};
