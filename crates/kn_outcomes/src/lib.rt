//! A law over what a session comes to: each request has its outcome.
#![tactic(auto)]

pub mod laws;
