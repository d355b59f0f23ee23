//! TCP as callers and as links to pods. They tell no content. What std offers of time-outs is used, so that a peer that
//! is dead holds nobody for ever.
#![tactic(auto)]

mod attempt;
mod caller;
mod closing;
mod course;
mod line;
mod link;
mod looks;
mod pod;
mod probes;

pub use caller::TcpCaller;
pub use kn_reply::{
    answers_are_replies, plain_forms_are_determined, put_plain, replies_are_determined,
};
pub use link::TcpLink;
pub use looks::{Found, look};
