//! Which settings a decision hangs on: those by which, at another value and with all else as it was, another count is
//! wanted, or it is applied otherwise.
#![tactic(auto)]

mod counts;
pub mod laws;
mod lever;
mod levers;
pub mod rows;

pub use counts::{
    count_for, is_cut, is_kept, is_raised, max_scale_down, max_scale_up, one_or_more,
};
pub use lever::{Before, Change, Lever, Setting, Why};
pub use levers::change_of;
