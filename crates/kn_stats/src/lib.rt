//! What live requests took of each second, from their changes: the activator's area, and two areas for each pod.
#![tactic(auto)]

mod change;
mod clock;
mod closed;
mod pods;
mod stats;
mod tally;
mod totals;

pub use change::Change;
pub use closed::{Closed, Run};
pub use stats::{PodArea, Stats};
pub use totals::Totals;
