//! Where connections wait until their requests begin.
ghost use Rattle.std.specs.Prelude.{◌≡◌, ◌≢◌, ◌⊎◌, ℕ, None, false};
ghost use Rattle.std.specs.Duration.{as_nanos};
ghost use Rattle.slab.specs.Slab.{get};
ghost use Rattle.kn_front.specs.Patience.{NobodyIsDue};

use crate::caller::time_left;
use crate::door::{RETRY_MS, TcpDoor};
use crate::limits::{Limits, MOST_WAITING};
use crate::silent_ones::SilentOnes;
use crate::socket::Intake;
use kn_tcp::{Found, look};
use mio::{Events, Poll, Token};
use std::alloc::Global;
use std::io;
use std::net::{Net, TcpStream};
use std::sync::Wait;
use std::time::{Clock, Duration, Instant};

/// The token of what ends the sleep. Each other one is a silent connection's place.
pub(crate) const WAKER: Token = Token(usize::MAX);

/// How many events one sleep gives at most.
const EVENTS: usize = 1024;

/// How many connections are taken in before it is looked again for what happened meanwhile.
const TAKEN: usize = 256;

/// How many milliseconds pass before it is looked again who has come, while no caller waits at the socket.
const BEAT_MS: u64 = 20;

/// How many milliseconds callers have to come back from the socket before they are called again.
const CALL_MS: u64 = 1;

/// How many milliseconds those have to begin who are silent when the door is closed.
const GRACE_MS: u64 = 250;

/// The connections that came and are silent. It takes them in itself while no caller waits at the socket.
#[derive(Drop)]
pub(crate) struct Station {
    poll: Poll,
    events: Events,
    silent: SilentOnes,
    limits: Limits,
}

impl Station {
    /// A station where nobody waits.
    pub(crate) fn new(alloc: Global, poll: Poll, limits: Limits) -> io::Result<Station> {
        let registry = poll.registry().try_clone()?;
        Ok(Station {
            poll,
            events: Events::with_capacity(alloc, EVENTS)?,
            silent: SilentOnes::new(alloc, registry, limits.waiting)?,
            limits,
        })
    }

    /// Sees to connections until the door is closed.
    pub(crate) fn run<R: Wait + Clock + Net>(mut self, rt: &R, door: &TcpDoor) -> io::Result<()> {
        for _ in rt.forever() {
            if door.is_closed() {
                break;
            }
            self.turn(rt, door)?;
        }
        self.finish(rt, door)
    }

    /// Takes in who comes, sleeps until something happens, and sees to it.
    fn turn<R: Wait + Clock + Net>(&mut self, rt: &R, door: &TcpDoor) -> io::Result<()> {
        let now = Instant::now(rt)?;
        self.take_back(rt, door, now);
        let soon = self.take_in(rt, door, now);
        door.count_silent(self.silent.len());
        door.call(rt, door.to_call(rt));
        let due = self.silent.until_due(now, self.limits.idle);
        let wait = if door.lets_sleep(rt) {
            due
        } else {
            sooner(due, soon)
        };
        self.poll.poll(&mut self.events, wait)?;
        self.see_events(rt, door);
        self.close_due(rt, door, Instant::now(rt)?);
        Ok(())
    }

    /// Takes in who has come while no caller waits at the socket, as far as there is room. How long it need not look again.
    fn take_in<R: Wait>(&mut self, rt: &R, door: &TcpDoor, now: Instant) -> Duration {
        for _ in 0..TAKEN {
            match door.take_in(rt, self.silent.len(), self.limits.waiting) {
                Intake::Came(stream) => self.begin(rt, door, stream, now),
                Intake::Nobody => return Duration::from_millis(BEAT_MS),
                Intake::Failed => return Duration::from_millis(RETRY_MS),
            }
        }
        Duration::ZERO
    }

    /// Lets a connection that came through the door, or keeps it while it is silent.
    fn begin<R: Wait>(&mut self, rt: &R, door: &TcpDoor, stream: TcpStream, now: Instant) {
        match look(&stream, 0) {
            Found::Begun => door.put(rt, stream),
            Found::Silent => {
                self.silent.add(stream, now);
            }
            Found::Ended => {}
        }
    }

    /// Keeps those that callers found silent.
    fn take_back<R: Wait>(&mut self, rt: &R, door: &TcpDoor, now: Instant) {
        for _ in 0..MOST_WAITING {
            match door.take_back(rt) {
                Some(stream) => {
                    self.silent.add(stream, now);
                }
                None => return,
            }
        }
    }

    /// Sees to what happened while it slept.
    fn see_events<R: Wait>(&mut self, rt: &R, door: &TcpDoor) {
        for event in &self.events {
            match event.token() {
                WAKER => {}
                Token(place) => see(rt, door, &mut self.silent, place, true),
            }
        }
    }

    /// Closes those that have been silent for too long.
    fn close_due<R: Wait>(&mut self, rt: &R, door: &TcpDoor, now: Instant)
        ensures { NobodyIsDue (as_nanos self.old.limits.idle) now self.new.silent.ones }
    {
        let idle = self.limits.idle;
        if !self.silent.may_be_due(now, idle) {
            return;
        }
        for place in 0..self.silent.places() {
            if self.silent.is_due(place, now, idle) {
                see(rt, door, &mut self.silent, place, false);
            }
        }
        self.silent.find_oldest();
    }

    /// Lets no caller go to the socket any more, and calls those away who are there, until this time at most.
    fn call_all<R: Wait + Clock + Net>(
        &mut self,
        rt: &R,
        door: &TcpDoor,
        end: Option<Instant>,
    ) -> io::Result<()> {
        for _ in rt.forever() {
            let there = door.shut(rt);
            if there == 0 || time_left(end, Instant::now(rt)?).is_none() {
                return Ok(());
            }
            door.call(rt, there);
            let wait = Duration::from_millis(CALL_MS);
            self.poll.poll(&mut self.events, Some(wait))?;
            self.see_events(rt, door);
        }
        unreachable!()
    }

    /// Takes in all who have come by now.
    fn take_all_in<R: Wait>(&mut self, rt: &R, door: &TcpDoor, now: Instant) {
        for _ in 0..MOST_WAITING / TAKEN {
            if !self.take_in(rt, door, now).is_zero() {
                break;
            }
        }
    }

    /// Lets those through the door whose requests begin by this time.
    fn wait_until<R: Wait + Clock>(
        &mut self,
        rt: &R,
        door: &TcpDoor,
        end: Option<Instant>,
    ) -> io::Result<()> {
        for _ in rt.forever() {
            let now = Instant::now(rt)?;
            let tries = door.on_trial() > 0;
            self.take_back(rt, door, now);
            let left = time_left(end, now);
            if (self.silent.len() == 0 && !tries) || left.is_none() {
                return Ok(());
            }
            door.count_silent(self.silent.len());
            let wait = sooner(left, Duration::from_millis(BEAT_MS));
            self.poll.poll(&mut self.events, wait)?;
            self.see_events(rt, door);
        }
        unreachable!()
    }

    /// Lets those through who have come by now and begin shortly, and closes the socket and all others.
    fn finish<R: Wait + Clock + Net>(mut self, rt: &R, door: &TcpDoor) -> io::Result<()> {
        let now = Instant::now(rt)?;
        let end = now.checked_add(Duration::from_millis(GRACE_MS));
        self.call_all(rt, door, end)?;
        self.take_all_in(rt, door, now);
        door.close_socket();
        let waited = self.wait_until(rt, door, end);
        for place in 0..self.silent.places() {
            see(rt, door, &mut self.silent, place, false);
        }
        waited
    }
}

/// The shorter one of this wait, which may be for ever, and another.
fn sooner(wait: Option<Duration>, other: Duration) -> Option<Duration> {
    Some(wait.unwrap_or(other).min(other))
}

/// Lets the connection at this place through the door if its request has begun, and else closes it, where it has ended or isn't
/// to stay.
fn see<R: Wait>(rt: &R, door: &TcpDoor, silent: &mut SilentOnes, place: usize, stays: bool)
    ensures here { (get silent.new.ones place ≡ get silent.old.ones place) ⊎ (get silent.new.ones place ≡ None) }
    ensures gone { stays ≡ false → get silent.new.ones place ≡ None }
    ensures others { (other : ℕ) → other ≢ place → get silent.new.ones other ≡ get silent.old.ones other }
    ensures places { silent.new.places ≡ silent.old.places }
{
    match silent.look_at(place) {
        Some(Found::Begun) => {
            if let Some(stream) = silent.remove(place) {
                door.put(rt, stream);
            }
        }
        Some(Found::Silent) if stays => {}
        Some(_) => drop(silent.remove(place)),
        None => {}
    }
}
