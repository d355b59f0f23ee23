//! What is answered of a revision.
ghost use Rattle.std.specs.Prelude.{◌≡◌, ◌<◌, ◌≤◌, length, IfSome};
ghost use Rattle.kn_event.specs.declared.revision.Spec.{Spec as SpecValue};
ghost use Rattle.kn_trace.specs.Trace.{Trace, arrivals, live, next_starting, proxied, stand_of};
ghost use Rattle.kn_core.specs.State.{ArePartsOf, ArePartsOfSome, IsAmongLive};

use super::Parts;
use kn_event::Stand;
use kn_record::append::{append_laws, order_laws};

impl Parts {
    pub(crate) fn stand(&self, r: u64) -> Stand
        ensures stand { (s : SpecValue) (c : Trace) → ArePartsOf s self.now c → result ≡ stand_of c r }
        ensures live { IsAmongLive result (length self.now.throttle.admission.live) }
    {
        self.throttle.stand(r)
    }

    pub(crate) fn proxied(&self, r: u64) -> bool
        ensures { (s : SpecValue) (c : Trace) → ArePartsOf s self.now c → result ≡ proxied c r }
    {
        self.throttle.proxied(r)
    }

    pub(crate) fn next_starting(&self, from: u64) -> Option<u64>
        requires { ArePartsOfSome self.now }
        ensures pod { (s : SpecValue) (c : Trace) → ArePartsOf s self.now c → result ≡ next_starting c from }
        ensures from { IfSome result (λ p. from ≤ p) }
        ensures created { IfSome result (λ p. p < self.now.pods.created) }
    {
        append_laws();
        order_laws();
        self.pods.next_starting(from)
    }

    pub(crate) fn live(&self) -> u64
        ensures value { result ≡ length self.now.throttle.admission.live }
        ensures live { (s : SpecValue) (c : Trace) → ArePartsOf s self.now c → result ≡ length (live c) }
    {
        append_laws();
        self.throttle.live()
    }

    pub(crate) fn arrivals(&self) -> u64
        ensures { (s : SpecValue) (c : Trace) → ArePartsOf s self.now c → result ≡ arrivals c }
    {
        append_laws();
        self.throttle.arrivals()
    }
}
