//! The record of requests and pods that a trace comes to, what one more entry changes of it, and the rows of an event one
//! after the other: all that a body needs which keeps a record in place of the trace. No function here computes anything:
//! each says by its clauses what is proved of the definitions.
#![tactic(auto)]

mod admission;
pub mod append;
pub mod facts;
pub mod seating;

pub use admission::{Place, Pod, Readiness, Request};
