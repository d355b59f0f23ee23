//! Several activators that share the pods of one revision: each pod's limit is cut into slices, and no more requests run there
//! than the limit in force.
#![tactic(auto)]

mod change;
mod group;
mod laws;
mod listing;
mod parts;

pub use change::Change;
pub use group::Group;
pub use laws::share_laws;
pub use parts::slice;
