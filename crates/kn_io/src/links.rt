//! Links to pods.
ghost use Rattle.std.specs.Prelude.{◌≡◌, ◌≤◌, Err, Option};
ghost use Rattle.kn_io.specs.Causes.{HasCause, Rose};
ghost use Rattle.kn_io.specs.Links.{Link, Tells, called, probed};

use crate::traits::{Failed, Faulty};
use kn_event::Text;
use std::alloc::Global;

/// Why a call of a pod has no reply.
#[derive(Clone, Copy)]
pub enum LinkError {
    /// Answered only where the count of faults rose in the call.
    Failed,
    Memory,
}

/// A way to the pods of a revision.
pub trait PodLink: Faulty {
    /// The calls and the probes made so far, where the link tells them. A link that has stopped telling never tells
    /// again.
    ghost told: { Self → Option Link };

    /// Asks whether the pod can be reached.
    fn probe(&mut self, pod: u64) -> Result<bool, Failed>
        ensures recorded { Tells (told self.old) (told self.new) (λ link. probed link pod result) }
        ensures cause { HasCause (Self.faults self.old) (Self.faults self.new) result };

    /// Sends the pod this request, and answers its whole reply.
    fn call(&mut self, alloc: Global, pod: u64, request: &[u8]) -> Result<Text, LinkError>
        ensures recorded { Tells (told self.old) (told self.new) (λ link. called link pod request.now result) }
        ensures never_falls { Self.faults self.old ≤ Self.faults self.new }
        ensures cause { result ≡ Err LinkError.Failed → Rose (Self.faults self.old) (Self.faults self.new) };
}
