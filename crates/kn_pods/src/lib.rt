//! The live pods of a revision: created, Ready, drained, and gone.
#![tactic(auto)]

pub mod laws;
mod numbers;
mod pods;

pub use pods::{PodAnswer, Pods};
