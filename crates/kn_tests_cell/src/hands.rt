//! A clock and a gate, which tests set.
use crate::words::{number_of, numbers_of};
use kn_io::{Clock, Gate, ListClock};
use kn_request::Left;
use std::alloc::{AllocError, Global};
use std::sync::atomic::{AtomicBool, AtomicU64, Ordering};

/// Who comes to the gate late is let in at this time: all waits are over then.
const LATE: u64 = 1_000_000_000;

/// A clock of these times, of which the last is given again and again, and a gate.
#[derive(Drop)]
pub struct Hands {
    times: ListClock,
    /// The time that it is at least.
    least: AtomicU64,
    pub naps: AtomicU64,
    /// How many slots are at work, as a ticker asks that has no others.
    pub left: Left,
    even: AtomicU64,
    odd: AtomicU64,
    /// Whether somebody was held at the gate for too long.
    pub late: AtomicBool,
    /// The gate holds whoever comes until so many of the two have come, and the clock was let nap so often. Then it is
    /// this time.
    slots: u64,
    stop: u64,
    until: u64,
}

impl Hands {
    /// By words, as `times=0,2000 slots=2 naps=2 until=1000`.
    pub fn of(alloc: Global, words: &str) -> Result<Hands, AllocError> {
        let times = numbers_of(alloc, words, "times=", 0)?;
        let stop = number_of(words, "naps=", 0);
        Ok(Hands {
            times: ListClock::new(times),
            least: AtomicU64::new(0),
            naps: AtomicU64::new(0),
            left: Left::new(u64::from(stop > 0)),
            even: AtomicU64::new(0),
            odd: AtomicU64::new(0),
            late: AtomicBool::new(false),
            slots: number_of(words, "slots=", 0),
            stop,
            until: number_of(words, "until=", 0),
        })
    }

    /// How often the gate was passed by an even tag, and by an odd one.
    pub fn passes(&self) -> [u64; 2] {
        [
            self.even.load(Ordering::SeqCst),
            self.odd.load(Ordering::SeqCst),
        ]
    }

    fn is_open(&self) -> bool {
        let [even, odd] = self.passes();
        u64::from(even > 0).saturating_add(u64::from(odd > 0)) >= self.slots
            && self.naps.load(Ordering::SeqCst) >= self.stop
    }
}

impl Clock for Hands {
    ghost reading = { λ _ _. Unit {0} };

    fn now_ms(&self) -> u64 {
        self.times.now_ms().max(self.least.load(Ordering::SeqCst))
    }

    fn nap(&self) {
        let naps = self.naps.fetch_add(1, Ordering::SeqCst);
        if naps.saturating_add(1) == self.stop {
            self.left.done();
        }
    }
}

impl Gate for Hands {
    fn pass(&self, tag: u64) {
        let own = if tag % 2 == 0 { &self.even } else { &self.odd };
        own.fetch_add(1, Ordering::SeqCst);
        for _ in 0..100_000_000u64 {
            if self.is_open() {
                self.least.fetch_max(self.until, Ordering::SeqCst);
                return;
            }
        }
        self.late.store(true, Ordering::SeqCst);
        self.least.fetch_max(LATE, Ordering::SeqCst);
    }
}
