//! A server that goes on until it is told to stop, and prints its journal as it is made.
#![tactic(auto)]

mod outside;
mod pods;
mod serving;
mod setting;
mod stay;
mod stayed;

pub use kn_scribe::Doors;
pub use outside::StayOutside;
pub use setting::StaySetting;
pub use stay::stay_run;
pub use stayed::Stayed;
