//! What the status page shows of a server.
ghost use Rattle.std.specs.Prelude.{⊤};

use kn_front::TcpDoor;
use kn_page::Server;
use std::sync::Wait;

/// A server as seen by its clients' door.
#[derive(Drop)]
pub struct Shown<'a> {
    door: &'a TcpDoor,
}

impl<'a> Shown<'a> {
    /// The server to which this door leads.
    pub fn new(door: &'a TcpDoor) -> Shown<'a> {
        Shown { door }
    }
}

impl<'a> Server for Shown<'a> {
    ghost stops = { λ _ _. ⊤ };

    ghost waits = { λ _ _. ⊤ };

    fn is_stopping(&self) -> bool {
        self.door.is_closed()
    }

    fn waiting<R: Wait>(&self, rt: &R) -> u64 {
        self.door.waiting(rt)
    }

    fn at_work(&self) -> u64 {
        self.door.busy()
    }
}
