//! What is counted of a revision at one time.
ghost use Rattle.std.specs.Prelude.{◌≡◌, ◌+◌, ◌≤◌, ◌++◌, length};
ghost use Rattle.kn_show_series.specs.Fields.{gauges_text, pods_text, requests_text};
ghost use Rattle.kn_show_series.specs.Steps.{OnTrace, gauges_of, wanted_of};

use crate::counts::put_field;
use kn_core::Revision;
use kn_event::Line;

/// How many pods and requests there are of each kind.
#[derive(Clone, Copy)]
pub(crate) struct Gauges {
    pub(crate) ready: u64,
    pub(crate) starting: u64,
    pub(crate) draining: u64,
    pub(crate) wanted: u64,
    pub(crate) held: u64,
    pub(crate) queued: u64,
    pub(crate) running: u64,
}

impl Gauges {
    /// Before anything was counted.
    pub(crate) fn zero() -> Gauges {
        Gauges {
            ready: 0,
            starting: 0,
            draining: 0,
            wanted: 0,
            held: 0,
            queued: 0,
            running: 0,
        }
    }

    /// Those of a revision. A fixed one wants these pods.
    #[tactic(auto, unfolding(crate::specs::Steps::gauges_of))]
    pub(crate) fn of(revision: &Revision, pods: u64) -> Gauges
        ensures { OnTrace revision.now pods (λ c. result ≡ gauges_of revision.now.spec c) }
    {
        Gauges {
            ready: revision.count_ready(),
            starting: revision.count_starting(),
            draining: revision.count_draining(),
            wanted: wanted(revision, pods),
            held: revision.count_held(),
            queued: revision.count_queued(),
            running: revision.count_running(),
        }
    }

    /// Adds a field for each.
    #[tactic(auto, using(std::proofs::Common::append_assoc), unfolding(crate::specs::Fields::gauges_text))]
    pub(crate) fn put(&self, line: &mut Line)
        requires { length line.old ≤ 50 }
        ensures value { line.new ≡ line.old ++ gauges_text self.now }
        ensures short { length line.new ≤ length line.old + 287 }
    {
        self.put_pods(line);
        self.put_requests(line);
    }

    #[tactic(auto, using(crate::proofs::Pieces::four_pieces))]
    fn put_pods(&self, line: &mut Line)
        requires { length line.old ≤ 50 }
        ensures value { line.new ≡ line.old ++ pods_text self.now }
        ensures short { length line.new ≤ length line.old + 164 }
    {
        put_field(line, u128::from(self.ready));
        put_field(line, u128::from(self.starting));
        put_field(line, u128::from(self.draining));
        put_field(line, u128::from(self.wanted));
    }

    #[tactic(auto, using(crate::proofs::Pieces::three_pieces))]
    fn put_requests(&self, line: &mut Line)
        requires { length line.old ≤ 214 }
        ensures value { line.new ≡ line.old ++ requests_text self.now }
        ensures short { length line.new ≤ length line.old + 123 }
    {
        put_field(line, u128::from(self.held));
        put_field(line, u128::from(self.queued));
        put_field(line, u128::from(self.running));
    }
}

/// How many pods a revision wants: by its decisions, or these where it is fixed.
fn wanted(revision: &Revision, pods: u64) -> u64
    ensures { OnTrace revision.now pods (λ c. result ≡ wanted_of revision.now.spec.kind revision.now.spec c) }
{
    revision.wanted().unwrap_or(pods)
}
