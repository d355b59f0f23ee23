//! The machine's clock.
ghost use Rattle.std.specs.Prelude.{⊤};

use crate::times::Clock;
use std::time;
use std::time::Duration;

/// How many milliseconds a nap has.
const NAP: u64 = 100;

/// The machine's clock, in milliseconds since 1970, or 0 where it can't be read. The time of day is read once, when the clock is
/// made; what has passed since then is told by the clock that nobody sets. So it doesn't go back, and doesn't jump, where the
/// time of day is set. Every number is a reading of it.
#[derive(Drop)]
pub struct MachineClock<T> {
    timer: T,
    // How far the time of day was ahead of the clock that nobody sets. None where one of them couldn't be read, or it was behind.
    ahead: Option<Duration>,
}

/// How far the time of day is ahead of the clock that nobody sets.
fn ahead_of<T: time::Clock>(timer: &T) -> Option<Duration> {
    let day = timer.since_1970().ok()?;
    day.checked_sub(timer.monotonic().ok()?)
}

impl<T: time::Clock> MachineClock<T> {
    /// Reads the time of day.
    pub fn new(timer: T) -> MachineClock<T> {
        let ahead = ahead_of(&timer);
        MachineClock { timer, ahead }
    }

    /// The time since 1970.
    fn time(&self) -> Option<Duration> {
        match self.ahead {
            Some(ahead) => self.timer.monotonic().ok()?.checked_add(ahead),
            None => self.timer.since_1970().ok(),
        }
    }
}

impl<T: time::Clock> Clock for MachineClock<T> {
    ghost reading = { λ _ _. ⊤ };

    fn now_ms(&self) -> u64 {
        match self.time() {
            Some(time) => u64::try_from(time.as_millis()).unwrap_or(u64::MAX),
            None => 0,
        }
    }

    fn nap(&self) {
        self.timer.sleep(Duration::from_millis(NAP));
    }
}
