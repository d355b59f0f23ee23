//! Heads of requests with their bodies: read exactly or refused by name, sent on, and answered.
#![tactic(auto)]

mod answer;
mod chunks;
mod fields;
mod find;
mod forward;
mod head;
mod laws;
mod lines;
mod parts;
mod read;
mod rules;
mod window;

pub use answer::{Answer, answer_bytes};
pub use forward::{Forward, forward_bytes};
pub use head::{Head, HeadError, Headers};
pub use laws::{answers_are_determined, statuses_are_named};
pub use read::read_head;
