//! The live requests of a revision in a table that takes its memory once, for any number of requests over time.
#![tactic(auto)]

mod cursors;
mod hints;
mod links;
mod slot;
mod table;

pub use table::Table;
