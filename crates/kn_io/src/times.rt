//! Clocks and gates.
ghost use Rattle.std.specs.Prelude.{◌≡◌, ℕ};
ghost use Rattle.kn_io.specs.Readings.{IsReading};

use std::marker::Model;
use std::sync::atomic::{AtomicU64, Ordering};

/// A clock. It can't fail.
pub trait Clock {
    /// What it may answer. That each answer is a reading is all that is told of a clock.
    ghost reading: { Self → ℕ → Type 0 };

    /// The time in milliseconds.
    fn now_ms(&self) -> u64
        ensures { reading self.now result };

    /// Lets some time pass, or none.
    fn nap(&self);
}

/// What a request with this tag passes after its arrival. It promises nothing, and can't fail.
pub trait Gate {
    fn pass(&self, tag: u64);
}

/// A clock that answers these times in turn, then the last one again and again, and 0 where there is none.
/// Contracts see the list of its times.
#[derive(Drop)]
pub struct ListClock {
    times: Vec<u64>,
    asked: AtomicU64,
}

impl Model for ListClock {
    ghost use Rattle.std.specs.Prelude.{ℕ, List};

    ghost Value = { List ℕ };

    ghost view = { λ c. c.times.items };
}

impl ListClock {
    pub fn new(times: Vec<u64>) -> ListClock
        ensures { result ≡ times.items }
    {
        ListClock {
            times,
            asked: AtomicU64::new(0),
        }
    }
}

impl Clock for ListClock {
    ghost reading = { IsReading };

    fn now_ms(&self) -> u64 {
        let asked = self.asked.fetch_add(1, Ordering::SeqCst);
        let Some(&last) = self.times.last() else {
            return 0;
        };
        match self.times.get(asked as usize) {
            Some(&time) => time,
            None => last,
        }
    }

    fn nap(&self) {}
}

/// A gate that everyone passes at once.
#[derive(Clone, Copy, Drop)]
pub struct OpenGate;

impl Gate for OpenGate {
    fn pass(&self, _tag: u64) {}
}
