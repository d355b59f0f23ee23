//! Further worked runs of the definitions: those of the policies, and those of many events.
#![tactic(auto)]

pub mod books;
pub mod counts;
pub mod long;
pub mod policies;
