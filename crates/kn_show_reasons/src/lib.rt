//! Each decision of a run in words: which rules held, and by which numbers. And why requests were refused or given up.
#![tactic(auto)]

pub mod laws;
mod notice;
mod reasons;
mod seen;
mod sentences;

pub use reasons::{Reasons, ReasonsForm};
