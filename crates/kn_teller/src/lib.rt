//! What is written of a run, event after event: the report of a replay is one such text, and each form of `kact_show` is.
#![tactic(auto)]

mod taking;
mod teller;

pub use taking::take_first;
pub use teller::{Form, Teller};
