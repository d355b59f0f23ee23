//! What is counted of a revision, each count answered at once.
ghost use Rattle.std.specs.Prelude.{◌≡◌, length, true};
ghost use Rattle.kn_event.specs.Lists.{contains};
ghost use Rattle.kn_trace.specs.Scale.{count_ready};
ghost use Rattle.kn_trace.specs.Trace.{Trace, draining, held, limit_of, running_at, starting_pods};
ghost use Rattle.kn_record.specs.Admission.{is_held_place, placed_in, runs_at};
ghost use Rattle.kn_record.specs.Views.{pod_numbers};
ghost use Rattle.kn_throttle.specs.Gauges.{count_queued, count_queued_in, count_running, count_running_in, limit_in};
ghost use Rattle.kn_core.specs.Gauges.{wanted_now};
ghost use Rattle.kn_core.specs.State.{StandsFor};

use super::Revision;

impl Revision {
    /// The limit of a live pod; 0 is no limit.
    pub fn pod_limit(&self, p: u64) -> u64
        requires { contains p (pod_numbers self.now.parts.throttle.admission.pods) ≡ true }
        ensures value { result ≡ limit_in p self.now.parts.throttle.admission.pods }
        ensures limit { (c : Trace) → StandsFor self.now c → result ≡ limit_of c p }
    {
        self.parts.pod_limit(p)
    }

    /// How many requests run at a live pod.
    pub fn running(&self, p: u64) -> u64
        requires { contains p (pod_numbers self.now.parts.throttle.admission.pods) ≡ true }
        ensures value { result ≡ length (placed_in (runs_at p) self.now.parts.throttle.admission.live) }
        ensures running { (c : Trace) → StandsFor self.now c → result ≡ length (running_at c p) }
    {
        self.parts.running(p)
    }

    /// How many requests are held at the activator.
    pub fn count_held(&self) -> u64
        ensures value { result ≡ length (placed_in is_held_place self.now.parts.throttle.admission.live) }
        ensures held { (c : Trace) → StandsFor self.now c → result ≡ length (held c) }
    {
        self.parts.count_held()
    }

    /// How many requests are queued, at all live pods together.
    pub fn count_queued(&self) -> u64
        ensures value { result ≡ count_queued_in self.now.parts.throttle.admission.live self.now.parts.throttle.admission.pods }
        ensures queued { (c : Trace) → StandsFor self.now c → result ≡ count_queued c }
    {
        self.parts.count_queued()
    }

    /// How many requests run, at all live pods together.
    pub fn count_running(&self) -> u64
        ensures value { result ≡ count_running_in self.now.parts.throttle.admission.live self.now.parts.throttle.admission.pods }
        ensures running { (c : Trace) → StandsFor self.now c → result ≡ count_running c }
    {
        self.parts.count_running()
    }

    /// How many pods are Starting.
    pub fn count_starting(&self) -> u64
        ensures { (c : Trace) → StandsFor self.now c → result ≡ length (starting_pods c) }
    {
        self.parts.count_starting()
    }

    /// How many pods are Ready.
    pub fn count_ready(&self) -> u64
        ensures { (c : Trace) → StandsFor self.now c → result ≡ count_ready c }
    {
        self.parts.count_ready()
    }

    /// How many pods drain.
    pub fn count_draining(&self) -> u64
        ensures { (c : Trace) → StandsFor self.now c → result ≡ length (draining c) }
    {
        self.parts.count_draining()
    }

    /// How many pods are wanted, by the last decision or the opening. None where the revision doesn't scale.
    pub fn wanted(&self) -> Option<u64>
        ensures { (c : Trace) → StandsFor self.now c → result ≡ wanted_now self.now.spec c }
    {
        self.parts.wanted()
    }
}
