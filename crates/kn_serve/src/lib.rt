//! The serving part of `kactd`: words, opening, a whole session over one revision, and its printed journal.
#![tactic(auto)]

mod ending;
mod kactd;
mod laws;
mod open_error;
mod opening;
mod outside;
mod run;
mod setup;
mod telling;

pub use ending::clear;
pub use kactd::{kactd_run, refused, unopened};
pub use kn_plan::{Hosts, Plan, PlanError, plan_of};
pub use kn_request::{
    Answer, Ended, Left, Served, Slot, Turn, Work, serve_one, serve_read, tick_turn, ticker,
};
pub use laws::{run_laws, wide_laws};
pub use open_error::OpenError;
pub use opening::{MemOpener, Opener};
pub use outside::{Opens, Outside};
pub use run::{open_logged, open_revision, serve_run, start_of};
pub use setup::read_front;
pub use telling::tell;
