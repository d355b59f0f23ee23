//! Replies of pods: where one ends, whether it came whole, what the client is handed of it, and the plain form for clients
//! that know no chunks. Nothing here knows of sockets: what comes is read from any reader, and what goes to any sink.
#![tactic(auto)]

mod answer;
mod chunks;
mod heads;
mod laws;
mod plain;
mod receiving;
mod reply;

pub use laws::{answers_are_replies, plain_forms_are_determined, replies_are_determined};
pub use plain::put_plain;
pub use receiving::read_answer;
