//! The laws of the trace, proved of the definitions alone: what holds of every trace that a revision's events make. No
//! function here computes anything: each says by its clauses what is proved.
#![tactic(auto)]

pub mod laws;
pub mod parts;
