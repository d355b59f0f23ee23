//! Clients that wait for an answer.
ghost use Rattle.std.specs.Prelude.{◌≡◌, ◌≤◌, true};
ghost use Rattle.kn_io.specs.Causes.{Rose};

use kn_io::Caller;

/// Looks after clients that wait for an answer.
pub trait Watch<C: Caller> {
    /// Whether it may ever say that a client has left.
    ghost leaves: { Type 0 };

    /// Whether the client that was met last has left. It doesn't wait. Nothing that the caller tells changes but its count of
    /// faults, which rises where the client has left.
    fn has_left(&self, caller: &mut C) -> bool
        ensures kept { C.Sink.kept caller.new ≡ C.Sink.kept caller.old }
        ensures held { C.Sink.held caller.new ≡ C.Sink.held caller.old }
        ensures left { C.Source.left caller.new ≡ C.Source.left caller.old }
        ensures given { C.Source.given caller.new ≡ C.Source.given caller.old }
        ensures never_falls { C.Faulty.faults caller.old ≤ C.Faulty.faults caller.new }
        ensures leaves { result ≡ true → leaves × Rose (C.Faulty.faults caller.old) (C.Faulty.faults caller.new) };

    /// How long a request may wait before it is asked again, in milliseconds. It promises nothing.
    fn often_ms(&self) -> u64;
}

/// Watches nobody: no client is ever said to have left.
#[derive(Clone, Copy, Drop)]
pub struct NoWatch;

impl<C: Caller> Watch<C> for NoWatch {
    ghost leaves = { ⊥ };

    fn has_left(&self, _caller: &mut C) -> bool {
        false
    }

    fn often_ms(&self) -> u64 {
        10_000
    }
}
