//! Pods by their names.
ghost use Rattle.std.specs.Prelude.{◌≡◌};

use crate::attempt::Attempt;
use kn_event::Text;
use std::net::SocketAddr;
use std::time::{Duration, Instant};

/// How long an address that was found is used, in seconds.
const LASTS: u64 = 10;

/// An address, and when it took a connection.
#[derive(Clone, Copy, Drop)]
struct Found {
    at: Instant,
    address: SocketAddr,
}

/// A pod's name, and what is known of it: which address took a connection within the last ten seconds, so that the name isn't
/// looked up for each request, and the connection that was begun and isn't there yet.
#[derive(Drop)]
pub(crate) struct Pod {
    pub(crate) name: Text,
    found: Option<Found>,
    pub(crate) begun: Option<Attempt>,
}

impl Pod {
    /// A pod of which no more is known than its name.
    pub(crate) fn new(name: Text) -> Pod
        ensures { result.name ≡ name }
    {
        Pod {
            name,
            found: None,
            begun: None,
        }
    }

    /// Its address, where it was found not long ago.
    pub(crate) fn address(&self, now: Instant) -> Option<SocketAddr> {
        let found = self.found?;
        let age = now.saturating_duration_since(found.at);
        if age < Duration::from_secs(LASTS) {
            Some(found.address)
        } else {
            None
        }
    }

    /// Keeps an address that was found just now.
    pub(crate) fn keep(&mut self, now: Instant, address: SocketAddr) {
        self.found = Some(Found { at: now, address });
    }

    /// The name is looked up next time.
    pub(crate) fn forget(&mut self) {
        self.found = None;
    }
}
