//! What a page shows of the server beside its revision.
ghost use Rattle.std.specs.Prelude.{ℕ, Bool};

use std::sync::Wait;

/// The server whose page it is. That each answer is one that it may give is all that is told of it.
pub trait Server {
    /// Whether it may say that it stops.
    ghost stops: { Self → Bool → Type 0 };

    /// How many connections it may say that wait.
    ghost waits: { Self → ℕ → Type 0 };

    /// Whether it stops: it takes no further connections.
    fn is_stopping(&self) -> bool
        ensures { stops self.now result };

    /// How many connections wait for a slot.
    fn waiting<R: Wait>(&self, rt: &R) -> u64
        ensures { waits self.now result };

    /// How many slots have a connection. It promises nothing.
    fn at_work(&self) -> u64;
}
