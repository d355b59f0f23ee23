//! One revision in fixed memory: what the activator, the pods and the autoscaler do at each event.
#![tactic(auto)]

mod first;
mod parts;
mod revision;
mod rows;
mod scaling;

pub use first::{FirstRows, OwnRow};
pub use revision::Revision;
