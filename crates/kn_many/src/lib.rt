//! The serving part of `kactd many`: words, opening, a whole session over several revisions, and its printed journals.
#![tactic(auto)]

mod ending;
mod kactd_many;
mod many;
mod outside;
mod setups;
mod wide_opening;

pub use kactd_many::kactd_many_run;
pub use kn_plan::{HostLists, WidePlan, wide_plan_of};
pub use kn_request::WideSlot;
pub use many::serve_many;
pub use outside::OpensAll;
pub use wide_opening::{MemWideOpener, WideOpener};
