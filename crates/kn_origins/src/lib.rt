//! Where each setting of a setup comes from, and the line that says so.
#![tactic(auto)]

mod amounts;
mod ignored;
mod lines;
mod origin;

pub use amounts::{
    metric_text, panic_origin, target_milli, target_origin, total_origin, utilisation,
    utilisation_origin, window_origin,
};
pub use ignored::add_ignored_text;
pub use lines::{add_flag, add_number, add_thousandths, add_word};
pub use origin::{Origin, annotated, configured, overridden, renamed, specified};
