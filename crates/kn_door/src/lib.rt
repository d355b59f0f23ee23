//! What a server that goes on sees of the outside: the door through which its clients come, who has left, and what tells it to stop.
#![tactic(auto)]

mod close;
mod door;
mod guest;
mod mem_door;
mod stop;
mod watch;

pub use close::Close;
pub use door::Door;
pub use guest::Guest;
pub use mem_door::MemDoor;
pub use stop::{Stop, StopAfter};
pub use watch::{NoWatch, Watch};
