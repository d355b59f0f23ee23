//! What is counted of a revision.
ghost use Rattle.std.specs.Prelude.{◌<◌, ◌+◌, ◌^◌};
ghost use Rattle.kn_trace.specs.Trace.{Trace};
ghost use Rattle.kn_core.specs.State.{StandsFor};

use crate::tally::Tally;
use kn_core::Revision;

/// How many rows, requests and pods there are.
#[derive(Clone, Copy)]
pub struct Figures {
    /// The rows by their kinds.
    pub tally: Tally,
    /// Requests that are held at the activator.
    pub held: u64,
    /// Requests that are queued, at all live pods together.
    pub queued: u64,
    /// Requests that run, at all live pods together.
    pub running: u64,
    /// Requests that were taken in and have not ended.
    pub live: u64,
    /// Pods that are Starting.
    pub starting: u64,
    /// Pods that are Ready.
    pub ready: u64,
    /// Pods that drain.
    pub draining: u64,
    /// Pods that are wanted; none where the revision doesn't scale.
    pub wanted: Option<u64>,
    /// Events that were recorded.
    pub recorded: u64,
    /// Recorded events that were not taken out to be printed.
    pub unprinted: u64,
}

impl Figures {
    ghost use Rattle.kn_figures.specs.Figures.{IsFiguresOf};
    ghost use Rattle.kn_figures.specs.Tallies.{IsTallyOf};

    /// Of a revision, beside the tally that is kept of its rows. Of so many recorded events some were taken out, and some are
    /// left.
    pub fn of(revision: &Revision, tally: &Tally, taken: u64, left: u64) -> Figures
        requires { taken + left < 2 ^ 64 }
        ensures { (c counted : Trace) → StandsFor revision.now c → IsTallyOf tally.now counted → IsFiguresOf revision.now.spec c counted (taken + left) taken result }
    {
        Figures {
            tally: *tally,
            held: revision.count_held(),
            queued: revision.count_queued(),
            running: revision.count_running(),
            live: revision.live(),
            starting: revision.count_starting(),
            ready: revision.count_ready(),
            draining: revision.count_draining(),
            wanted: revision.wanted(),
            recorded: taken + left,
            unprinted: left,
        }
    }
}
