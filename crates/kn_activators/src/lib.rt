//! Several activators that share a revision's pods: their events are read, stepped through, and their rows written.
#![tactic(auto)]

mod error;
mod event;
mod follow;
mod forces;
mod laws;
mod line;
mod read;
mod replay;
mod setup;

pub use error::GroupError;
pub use event::GroupEvent;
pub use follow::replay_slices;
pub use laws::sharing_laws;
pub use setup::GroupSetup;
