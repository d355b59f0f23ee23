//! A journal that is followed from its first byte to its last: what is written of its run is the teller's.
#![tactic(auto)]

mod ending;
mod follower;
mod journal;
pub mod laws;

pub use ending::status_of;
pub use follower::Follower;
pub use journal::follow_journal;
