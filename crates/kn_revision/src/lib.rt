//! A Revision, resolved over the configuration to the one specification that the core runs.
#![tactic(auto)]

mod amounts;
mod annotation;
mod error;
mod member;
mod specification;

pub use error::{Field, SpecError};
pub use specification::{defaults_are_those_of_fixed_pods, other_members_are_ignored, resolve};
