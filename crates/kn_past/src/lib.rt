//! What decisions look back on, as a trace goes on: the standing and the past decisions, the load of each second and its
//! samples, and the averages over them. No function here computes anything: each says by its clauses what is proved of the
//! definitions.
#![tactic(auto)]

pub mod changes;
pub mod events;
pub mod loads;
pub mod samples;
