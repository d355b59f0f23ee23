//! A server that goes on, over TCP: from the words behind `stay` to its exit status.
#![tactic(auto)]

mod ending;
mod fronts;
mod notes;
mod server;
mod shown;
mod slots;
mod stay;
mod threads;

pub use stay::{Streams, kactd_stay};
