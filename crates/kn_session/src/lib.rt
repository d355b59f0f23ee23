//! A session of slots in threads, with the ticker beside them: over one revision, or over several.
#![tactic(auto)]

mod attendant;
mod attending;
mod jobs;
mod lasting;
mod laws;
mod notes;
mod over;
mod pace;
mod passes;
mod rounds;
mod session;
mod setting;
mod shared;
mod sided;
mod wide;
mod wide_close;
mod wide_jobs;
mod wide_open;
mod wide_passes;
mod wide_rounds;
mod wide_run;
mod wide_setting;

pub use attendant::{Attendant, NoAttendant};
pub use lasting::{Lasting, serve_lasting};
pub use notes::{NoNotes, Notes};
pub use pace::{ByDoor, Pace, Rounds};
pub use session::serve_session;
pub use setting::Setting;
pub use sided::Sided;
pub use wide::serve_wide_session;
pub use wide_setting::WideSetting;
