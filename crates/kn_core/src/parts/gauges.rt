//! What is counted of a revision.
ghost use Rattle.std.specs.Prelude.{◌≡◌, length, true};
ghost use Rattle.kn_event.specs.declared.revision.Spec.{Spec as SpecValue};
ghost use Rattle.kn_event.specs.Lists.{contains};
ghost use Rattle.kn_trace.specs.Scale.{count_ready};
ghost use Rattle.kn_trace.specs.Trace.{Trace, draining, held, limit_of, running_at, starting_pods};
ghost use Rattle.kn_record.specs.Admission.{is_held_place, placed_in, runs_at};
ghost use Rattle.kn_record.specs.Views.{pod_numbers};
ghost use Rattle.kn_throttle.specs.Gauges.{count_queued, count_queued_in, count_running, count_running_in, limit_in};
ghost use Rattle.kn_core.specs.Gauges.{wanted_now};
ghost use Rattle.kn_core.specs.State.{ArePartsOf, IsScalerOf};

use super::Parts;
use kn_scaler::Scaler;

impl Parts {
    pub(crate) fn pod_limit(&self, p: u64) -> u64
        requires { contains p (pod_numbers self.now.throttle.admission.pods) ≡ true }
        ensures value { result ≡ limit_in p self.now.throttle.admission.pods }
        ensures limit { (s : SpecValue) (c : Trace) → ArePartsOf s self.now c → result ≡ limit_of c p }
    {
        self.throttle.limit(p)
    }

    pub(crate) fn running(&self, p: u64) -> u64
        requires { contains p (pod_numbers self.now.throttle.admission.pods) ≡ true }
        ensures value { result ≡ length (placed_in (runs_at p) self.now.throttle.admission.live) }
        ensures running { (s : SpecValue) (c : Trace) → ArePartsOf s self.now c → result ≡ length (running_at c p) }
    {
        self.throttle.running(p)
    }

    pub(crate) fn count_held(&self) -> u64
        ensures value { result ≡ length (placed_in is_held_place self.now.throttle.admission.live) }
        ensures held { (s : SpecValue) (c : Trace) → ArePartsOf s self.now c → result ≡ length (held c) }
    {
        self.throttle.count_held()
    }

    pub(crate) fn count_queued(&self) -> u64
        ensures value { result ≡ count_queued_in self.now.throttle.admission.live self.now.throttle.admission.pods }
        ensures queued { (s : SpecValue) (c : Trace) → ArePartsOf s self.now c → result ≡ count_queued c }
    {
        self.throttle.count_queued()
    }

    pub(crate) fn count_running(&self) -> u64
        ensures value { result ≡ count_running_in self.now.throttle.admission.live self.now.throttle.admission.pods }
        ensures running { (s : SpecValue) (c : Trace) → ArePartsOf s self.now c → result ≡ count_running c }
    {
        self.throttle.count_running()
    }

    pub(crate) fn count_starting(&self) -> u64
        ensures { (s : SpecValue) (c : Trace) → ArePartsOf s self.now c → result ≡ length (starting_pods c) }
    {
        self.pods.count_starting()
    }

    pub(crate) fn count_ready(&self) -> u64
        ensures { (s : SpecValue) (c : Trace) → ArePartsOf s self.now c → result ≡ count_ready c }
    {
        self.pods.count_ready()
    }

    pub(crate) fn count_draining(&self) -> u64
        ensures { (s : SpecValue) (c : Trace) → ArePartsOf s self.now c → result ≡ length (draining c) }
    {
        self.pods.count_draining()
    }

    pub(crate) fn wanted(&self) -> Option<u64>
        ensures { (s : SpecValue) (c : Trace) → ArePartsOf s self.now c → result ≡ wanted_now s c }
    {
        wanted_by(&self.scaler)
    }
}

fn wanted_by(scaler: &Option<Scaler>) -> Option<u64>
    ensures { (s : SpecValue) (c : Trace) → IsScalerOf s scaler.now c → result ≡ wanted_now s c }
{
    match scaler {
        None => None,
        Some(scaler) => Some(scaler.want()),
    }
}
