//! The faults of a server's requests, on standard error.

use kn_faults::{FaultLog, Party};
use kn_io::Sink;
use kn_request::Served;
use kn_session::Notes;
use std::sync::Wait;
use std::time::Clock;

/// Tells a log of each request that ended in a fault of its pod or of its client.
#[derive(Drop)]
pub struct FaultNotes<'a, O, K> {
    log: &'a FaultLog<O, K>,
}

impl<'a, O, K> FaultNotes<'a, O, K> {
    /// Tells this log.
    pub fn new(log: &'a FaultLog<O, K>) -> FaultNotes<'a, O, K> {
        FaultNotes { log }
    }
}

impl<'a, O: Sink + Drop, K: Clock + Drop> Notes for FaultNotes<'a, O, K> {
    fn note<R: Wait>(&self, rt: &R, served: &Served) {
        match *served {
            Served::LinkFault => self.log.tell(rt, Party::Pod),
            Served::CallerFault => self.log.tell(rt, Party::Client),
            Served::Replied | Served::Refused(_) | Served::Full(_) | Served::Memory => {
                self.log.go_on(rt)
            }
        }
    }
}
