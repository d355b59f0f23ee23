//! What one request of a client comes to at the cell, and the ticker.
#![tactic(auto)]

mod laws;
mod meant;
mod one;
mod run;
mod serve;
mod slot;
mod ticks;
mod wait;
mod wide;
mod wide_ticks;

pub use kn_head::Answer;
pub use laws::server_laws;
pub use one::{serve_guest, serve_one, serve_read};
pub use slot::{Ended, Served, Slot, WideSlot, Work};
pub use ticks::{Left, Turn, tick_turn, ticker};
pub use wide::serve_wide;
pub use wide_ticks::tick_all;
