//! Rows of a report: written, counted, and kept until they are written out.
#![tactic(auto)]

mod decision;
mod digits;
mod frequent;
pub mod laws;
mod own;
mod rows;
mod stamp;
mod tally;
mod waiting;

pub use frequent::{
    put_admit, put_assign, put_direct, put_finish, put_not_running, put_overload, put_pod_full,
    put_queue_full, put_run,
};
pub use own::add_own_rows;
pub use tally::Tally;
pub use waiting::{Waiting, add_rows};
