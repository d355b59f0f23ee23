//! The door through which clients come.
ghost use Rattle.std.specs.Prelude.{◌≡◌, true, false};

use crate::close::Close;
use crate::watch::Watch;
use kn_io::Caller;
use std::sync::Wait;

/// Where connections wait until a caller takes them. The callers of all slots share it.
pub trait Door<C: Caller>: Close + Watch<C> {
    /// What holds where it hands a connection out.
    ghost lets_in: { Self → Type 0 };

    /// What holds where it is closed and no connection is left.
    ghost shut: { Self → Type 0 };

    /// Waits until a connection is there for this caller, which its next `meet` takes. False where the door is closed and no
    /// connection is left. Nothing that the caller tells changes.
    fn next<R: Wait>(&self, rt: &R, caller: &mut C) -> bool
        ensures lets_in { result ≡ true → lets_in self.now }
        ensures shut { result ≡ false → shut self.now }
        ensures kept { C.Sink.kept caller.new ≡ C.Sink.kept caller.old }
        ensures held { C.Sink.held caller.new ≡ C.Sink.held caller.old }
        ensures left { C.Source.left caller.new ≡ C.Source.left caller.old }
        ensures given { C.Source.given caller.new ≡ C.Source.given caller.old }
        ensures faults { C.Faulty.faults caller.new ≡ C.Faulty.faults caller.old };

    /// Whether it was closed. It promises nothing.
    fn is_closed(&self) -> bool;

    /// How many connections wait behind it. It promises nothing.
    fn waiting<R: Wait>(&self, rt: &R) -> u64;
}
