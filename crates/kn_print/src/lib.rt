//! The printed journal of a session's history, or of each revision's, whole or part by part as its rows come.
#![tactic(auto)]

mod opening;
mod print;
mod prints;
mod rows;

pub use opening::print_opening;
pub use print::{print_journal, printed_laws};
pub use prints::print_journals;
pub use rows::{print_rest, print_rows};
