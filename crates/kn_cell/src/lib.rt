//! A revision that threads share: what all of them do to it is one legal history.
#![tactic(auto)]

mod cell;
mod course;
mod desk;
pub mod laws;
mod past;
mod rule;
mod steps;
mod turn;
mod view;

pub use cell::{Pass, RevisionCell};
pub use course::{Course, Run};
pub use past::{Full, History, Past, TryError};
