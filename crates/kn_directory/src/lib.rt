//! The revisions of one server, in the setups' order, each to be found by its namespace and name without memory.
#![tactic(auto)]

mod directory;
mod revisions;

pub use revisions::Revisions;
