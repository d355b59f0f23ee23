//! The changes of live requests that a trace makes, and that what is measured of them is what is defined of the trace. No
//! function here computes anything: each says by its clauses what is proved of the definitions.
#![tactic(auto)]

pub mod laws;
