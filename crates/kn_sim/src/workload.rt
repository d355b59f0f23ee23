use kn_agenda::Job;
use kn_event::Items;
use kn_journal::Setup;

/// The jobs of a workload, in order. Contracts see the list of them.
pub type Jobs = Items<Job>;

/// A load on a revision: what it starts from, how long a pod takes to become ready (at most 600,000), up to when events are
/// made, and the requests to come. Times are in milliseconds.
#[derive(Drop)]
pub struct Workload {
    pub setup: Setup,
    pub start: u64,
    pub boot: u64,
    pub until: u64,
    pub jobs: Jobs,
}
