//! The words of `kactd`: what to listen on, the pods of one revision or of several, and how many slots, rounds and rows.
#![tactic(auto)]

mod address;
mod command;
mod plan;
mod plan_error;
mod stay_command;
mod stay_error;
mod stay_option;
mod stay_plan;
mod wide_plan;

pub use plan::{Hosts, Plan, plan_of};
pub use plan_error::PlanError;
pub use stay_error::{Fault, StayError};
pub use stay_option::StayOption;
pub use stay_plan::{StayPlan, stay_plan_of};
pub use wide_plan::{HostLists, WidePlan, wide_plan_of};
