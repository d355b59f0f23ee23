//! The plain machine: what the activator, the breaker and the autoscaler do, as definitions over the whole list of
//! entries (specs/), which every crate above cites. Code stands here only for the choice of a pod: a Ready pod as a policy
//! sees it, and the three policies as plain walks over such pods. `worked` has runs that the checker computes from the
//! definitions.
#![tactic(auto)]

mod candidate;
pub mod choice;
pub mod worked;

pub use candidate::Cand;
