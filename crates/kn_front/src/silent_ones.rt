//! The connections of which nothing has come yet.
ghost use Rattle.std.specs.Prelude.{◌≡◌, IfOk, IfSome, IsNone, None, Some, true, false, ℕ};
ghost use Rattle.std.specs.Duration.{as_nanos};
ghost use Rattle.slab.specs.Slab.{SameValues, Updates, get};
ghost use Rattle.kn_front.specs.Patience.{AreWithin, CameSince, EndsInTime, IsAdded, NobodyIsDue, is_by, is_due};

use crate::silent::Silent;
use kn_tcp::{Found, look};
use mio::unix::SourceFd;
use mio::{Interest, Registry, Token};
use slab::Slab;
use std::alloc::{AllocError, Global};
use std::net::TcpStream;
use std::os::fd::AsRawFd;
use std::time::{Duration, Instant};

/// The connections of which nothing has come yet, each at a place of its own. The registry's `Poll` is told of them by their places.
#[derive(Drop)]
pub(crate) struct SilentOnes {
    ones: Slab<Silent>,
    registry: Registry,
    places: usize,
    /// When the first of them came, or before that. None where there are none.
    oldest: Option<Instant>,
    ghost within: { AreWithin places ones },
    ghost since: { CameSince oldest ones },
}

/// The earlier of two times.
fn earlier(first: Option<Instant>, second: Instant) -> Instant
    ensures second { is_by (Some result) second ≡ true }
    ensures first { (t : Instant) → is_by first t ≡ true → is_by (Some result) t ≡ true }
{
    match first {
        Some(first) if second.checked_duration_since(first).is_some() => first,
        Some(_) | None => second,
    }
}

impl SilentOnes {
    /// None so far, and so many places.
    pub(crate) fn new(
        alloc: Global,
        registry: Registry,
        places: usize,
    ) -> Result<SilentOnes, AllocError>
        ensures none { IfOk result (λ s. (place : ℕ) → get s.ones place ≡ None) }
        ensures places { IfOk result (λ s. s.places ≡ places) }
    {
        Ok(SilentOnes {
            ones: Slab::with_capacity(alloc, places)?,
            registry,
            places,
            oldest: None,
        })
    }

    /// How many there are.
    pub(crate) fn len(&self) -> usize {
        self.ones.len()
    }

    /// How many there may be.
    pub(crate) fn places(&self) -> usize
        ensures { result ≡ self.now.places }
    {
        self.places
    }

    /// One more, which is silent at this time, and whether it is kept: one that has no place or can't be watched is closed.
    pub(crate) fn add(&mut self, stream: TcpStream, now: Instant) -> bool
        ensures added { result ≡ true → IsAdded (record { stream = stream; since = now }) self.old.ones self.new.ones }
        ensures closed { result ≡ false → SameValues self.old.ones self.new.ones }
        ensures places { self.new.places ≡ self.old.places }
    {
        let place = self.ones.vacant_key();
        if place >= self.places {
            return false;
        }
        if self
            .registry
            .register(
                &mut SourceFd(&stream.as_raw_fd()),
                Token(place),
                Interest::READABLE,
            )
            .is_err()
        {
            return false;
        }
        self.oldest = Some(earlier(self.oldest, now));
        self.ones.insert(Silent { stream, since: now }).is_ok()
    }

    /// What the one at this place is found to be, where there is one.
    pub(crate) fn look_at(&self, place: usize) -> Option<Found>
        ensures { IsNone result → get self.now.ones place ≡ None }
    {
        let one = self.ones.get(place)?;
        Some(look(&one.stream, 0))
    }

    /// Takes the one at this place out. None where there is none, or it can't be had.
    pub(crate) fn remove(&mut self, place: usize) -> Option<TcpStream>
        ensures taken { IfSome result (λ s. (one : Silent) × (get self.old.ones place ≡ Some one) × (one.stream ≡ s)) }
        ensures out { Updates self.old.ones self.new.ones place None }
        ensures places { self.new.places ≡ self.old.places }
    {
        let stream = self.ones.try_remove(place)?.stream;
        match self.registry.deregister(&mut SourceFd(&stream.as_raw_fd())) {
            Ok(()) => Some(stream),
            Err(_) => None,
        }
    }

    /// How long until one may have been silent for so long. None where there are none.
    pub(crate) fn until_due(&self, now: Instant, idle: Duration) -> Option<Duration>
        ensures { EndsInTime result (as_nanos idle) now self.now.ones }
    {
        match self.oldest {
            Some(oldest) => {
                let silent = now.saturating_duration_since(oldest);
                Some(idle.saturating_sub(silent))
            }
            None => None,
        }
    }

    /// Whether someone may have been silent for so long.
    pub(crate) fn may_be_due(&self, now: Instant, idle: Duration) -> bool
        ensures { result ≡ false → NobodyIsDue (as_nanos idle) now self.now.ones }
    {
        match self.until_due(now, idle) {
            Some(wait) => wait.is_zero(),
            None => false,
        }
    }

    /// Whether the one at this place has been silent for so long.
    pub(crate) fn is_due(&self, place: usize, now: Instant, idle: Duration) -> bool
        ensures { result ≡ is_due (as_nanos idle) now (get self.now.ones place) }
    {
        match self.ones.get(place) {
            Some(one) => {
                let silent = now.saturating_duration_since(one.since);
                idle.saturating_sub(silent).is_zero()
            }
            None => false,
        }
    }

    /// Finds anew who came first.
    pub(crate) fn find_oldest(&mut self)
        ensures ones { self.new.ones ≡ self.old.ones }
        ensures places { self.new.places ≡ self.old.places }
    {
        let mut oldest = None;
        for place in 0..self.places {
            if let Some(one) = self.ones.get(place) {
                oldest = Some(earlier(oldest, one.since));
            }
        }
        self.oldest = oldest;
    }
}
