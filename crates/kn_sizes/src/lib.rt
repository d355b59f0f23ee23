//! How many requests, pods and entries there are in a trace that events made, by how much one event lets them grow, and
//! what a server needs of one request. No function here computes anything: each says by its clauses what is proved.
#![tactic(auto)]

pub mod server;
pub mod sizes;
