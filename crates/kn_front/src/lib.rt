//! The front of a server that goes on: connections wait here until their requests begin, and come to slots through a door.
#![tactic(auto)]

mod caller;
mod door;
mod front;
mod gauge;
mod input_stop;
mod limits;
mod queue;
mod silent;
mod silent_ones;
mod socket;
mod station;

pub use caller::FrontCaller;
pub use door::TcpDoor;
pub use front::Front;
pub use input_stop::InputStop;
pub use limits::{Limits, MOST_WAITING, room_for};
