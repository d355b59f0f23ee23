//! Clients that come through a door.
ghost use Rattle.std.specs.Prelude.{◌≡◌, ◌≤◌, ◌<◌, IfSome, None, true};
ghost use Rattle.kn_io.specs.Causes.{Rose};
ghost use Rattle.std.specs.Duration.{as_nanos};
ghost use Rattle.kn_front.specs.Late.{late_text};
ghost use Rattle.kn_front.specs.Patience.{nanos_before, nanos_of};

use kn_io::{Caller, Failed, Faulty, Sink, Source};
use kn_tcp::TcpCaller;
use std::mem;
use std::net::TcpStream;
use std::time::{Clock, Duration, Instant};

/// What a client is answered whose request doesn't come in time.
fn late() -> &'static [u8]
    ensures { result.now ≡ late_text }
{
    b"HTTP/1.1 408 Request Timeout\r\nContent-Type: text/plain\r\nContent-Length: 33\r\nConnection: close\r\n\r\ntimed out waiting for the request"
}

/// How much longer than what is left of its time a read waits, in milliseconds, since the system may wake it too early.
const SLACK: u64 = 20;

/// A caller that is handed its connections by a door. All of a request has to come in the time that it is given, from when its
/// connection is met; where it doesn't, the client is answered with 408, and the read is a fault. In all else it is a `TcpCaller`.
#[derive(Drop)]
pub struct FrontCaller<K> {
    inner: TcpCaller,
    pub(crate) clock: K,
    read: Duration,
    // When the request has to be there. None before the first connection, or where the clock can't be read.
    until: Option<Instant>,
    // Whether nothing was read of the request, whose first bytes are there.
    unread: bool,
    // Whether it was said that the client that was met last has left.
    left: bool,
    // Whether its door counts it among those that have a connection.
    pub(crate) busy: bool,
    // Whether its door counts it among those whose client is looked after while it waits.
    pub(crate) watched: bool,
}

impl<K: Clock> FrontCaller<K> {
    /// A caller without faults so far, whose clients' requests take so long at most.
    pub fn new(clock: K, read: Duration) -> FrontCaller<K>
        ensures faults { ⟦<FrontCaller<K> as Faulty>⟧.faults result ≡ 0 }
        ensures given { ⟦<FrontCaller<K> as Source>⟧.given result ≡ 0 }
    {
        FrontCaller {
            inner: TcpCaller::handed(),
            clock,
            read,
            until: None,
            unread: false,
            left: false,
            busy: false,
            watched: false,
        }
    }

    /// Hands it the connection that it meets next, whose request has begun.
    pub(crate) fn hand(&mut self, stream: TcpStream)
        ensures faults { ⟦<FrontCaller<K> as Faulty>⟧.faults self.new ≡ ⟦<FrontCaller<K> as Faulty>⟧.faults self.old }
        ensures given { ⟦<FrontCaller<K> as Source>⟧.given self.new ≡ ⟦<FrontCaller<K> as Source>⟧.given self.old }
    {
        self.inner.hand(stream);
    }

    /// Whether the client that was met last has left, which is said once, as a fault of the client's.
    pub(crate) fn has_left(&mut self) -> bool
        ensures rose { result ≡ true → Rose (⟦<FrontCaller<K> as Faulty>⟧.faults self.old) (⟦<FrontCaller<K> as Faulty>⟧.faults self.new) }
        ensures never_falls { ⟦<FrontCaller<K> as Faulty>⟧.faults self.old ≤ ⟦<FrontCaller<K> as Faulty>⟧.faults self.new }
        ensures given { ⟦<FrontCaller<K> as Source>⟧.given self.new ≡ ⟦<FrontCaller<K> as Source>⟧.given self.old }
    {
        let leaves = !self.left && self.inner.has_ended();
        self.left = self.left || leaves;
        leaves
    }

    /// The milliseconds of its clock, or 0 where it can't be read.
    pub(crate) fn now_ms(&self) -> u64 {
        match self.clock.monotonic() {
            Ok(time) => u64::try_from(time.as_millis()).unwrap_or(u64::MAX),
            Err(_) => 0,
        }
    }

    /// The time so long from now.
    fn after(&self, wait: Duration) -> Option<Instant> {
        Instant::now(&self.clock).ok()?.checked_add(wait)
    }

    /// How much of the request's time is left. None where it is over.
    fn left(&self) -> Option<Duration> {
        let now = Instant::now(&self.clock).ok()?;
        time_left(self.until, now)
    }
}

/// How much time is left before another. None where there is none left.
pub(crate) fn time_left(until: Option<Instant>, now: Instant) -> Option<Duration>
    ensures time { nanos_of result ≡ nanos_before until now }
    ensures some { IfSome result (λ left. 0 < as_nanos left) }
{
    let left = until?.saturating_duration_since(now);
    if left.is_zero() { None } else { Some(left) }
}

impl<K> Faulty for FrontCaller<K> {
    ghost faults = { λ c. ⟦<TcpCaller as Faulty>⟧.faults c.inner };

    fn faults(&self) -> u64 {
        self.inner.faults()
    }
}

impl<K: Clock> Source for FrontCaller<K> {
    ghost left = { λ _. None };

    ghost apart = { λ _. None };

    ghost given = { λ c. ⟦<TcpCaller as Source>⟧.given c.inner };

    fn read(&mut self, buf: &mut [u8]) -> Result<usize, Failed> {
        let Some(left) = self.left() else {
            return Err(self.inner.dismiss(late()));
        };
        // The first read finds something, so it needs no time.
        if !mem::replace(&mut self.unread, false) {
            let wait = left.saturating_add(Duration::from_millis(SLACK));
            self.inner.wait_at_most(wait)?;
        }
        match self.inner.read(buf) {
            Ok(n) => Ok(n),
            Err(Failed) => {
                if self.left().is_none() {
                    self.inner.dismiss(late());
                }
                Err(Failed)
            }
        }
    }
}

impl<K> Sink for FrontCaller<K> {
    ghost held = { λ _. None };

    ghost kept = { λ _. None };

    fn write(&mut self, bytes: &[u8]) -> Result<usize, Failed> {
        self.inner.write(bytes)
    }
}

impl<K: Clock> Caller for FrontCaller<K> {
    ghost paired = { λ _. tt };

    ghost together = { λ _ i. None };

    ghost heard = { λ _. tt };

    fn meet(&mut self) -> Result<(), Failed> {
        self.inner.meet()?;
        self.until = self.after(self.read);
        self.unread = true;
        self.left = false;
        Ok(())
    }

    fn part(&mut self) {
        self.inner.part();
    }
}
