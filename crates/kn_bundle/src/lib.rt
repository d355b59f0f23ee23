//! A bundle: journals one after the other in one input, of which one is followed.
#![tactic(auto)]

mod bundle;
mod events;
mod journal;
mod laws;
mod opening;

pub use bundle::follow_bundle;
pub use laws::accounts_are_same;
