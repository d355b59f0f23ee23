//! What decisions look back on: `panic` with `TIME over|calm STABLE PANIC`, and a window of a minute; `delay SECONDS`
//! with `SECOND COUNT`; `window SECONDS` with `run SECOND COUNT LOAD` and `average SECOND`.
ghost use Rattle.std.specs.Prelude.{◌≡◌, ◌≤◌};

use crate::subject::{Subject, act_all};
use crate::words::{add, add_average, add_number, either, number, word};
use kn_delay::Delay;
use kn_event::Counts;
use kn_panic::Panic;
use kn_window::Window;
use std::alloc::Global;

pub fn panic(block: &str, out: &mut String) {
    let mut panic = Panic::new();
    act_all(&mut panic, block, out);
}

impl Subject for Panic {
    fn act(&mut self, line: &str, out: &mut String) {
        let (stable_count, panic_count) = (number(line, 2), number(line, 3));
        let counts = Counts {
            dspc: stable_count,
            dppc: panic_count,
            stable_count,
            panic_count,
            over: word(line, 1) == "over",
        };
        let panicked = self.take(number(line, 0), &counts, 60_000);
        let mode = either(panicked.panicking, "panicking ", "calm ");
        add_number(out, mode, panicked.count);
    }
}

/// A delay, and the second of its last decision.
pub struct Delays {
    delay: Delay,
    last: u64,
    ghost decided: { delay.last ≡ last },
}

impl Drop for Delays {
    fn drop(self) {
        let Delays { delay: _, last: _ } = self;
    }
}

pub fn delay(alloc: Global, block: &str, out: &mut String) {
    if let Ok(delay) = Delay::new(alloc, number(block, 1).min(3600)) {
        let mut delays = Delays { delay, last: 0 };
        act_all(&mut delays, block, out);
    }
}

impl Subject for Delays {
    /// A decision in a second, none before the last one's.
    fn act(&mut self, line: &str, out: &mut String) {
        let second = number(line, 0).max(self.last);
        let delayed = self.delay.take(second, number(line, 1));
        self.last = second;
        add_number(out, "", delayed);
    }
}

/// The latest time in seconds.
const MOST: u64 = 1 << 41;

/// A window, and the second after its last sample.
pub struct Windows {
    window: Window,
    end: u64,
    ghost recorded: { window.end ≡ end },
}

impl Drop for Windows {
    fn drop(self) {
        let Windows { window: _, end: _ } = self;
    }
}

pub fn window(alloc: Global, block: &str, out: &mut String) {
    if let Ok(window) = Window::new(alloc, number(block, 1).clamp(1, 3600)) {
        let mut windows = Windows { window, end: 0 };
        act_all(&mut windows, block, out);
    }
}

impl Subject for Windows {
    fn act(&mut self, line: &str, out: &mut String) {
        if word(line, 0) == "run" {
            self.record(number(line, 1), number(line, 2), number(line, 3), out);
        } else {
            self.add_average(number(line, 1).max(self.end), out);
        }
    }
}

impl Windows {
    /// Samples come after all before, and no number is too high.
    fn record(&mut self, second: u64, count: u64, load: u64, out: &mut String) {
        let fits = self.end <= second && second <= MOST && 0 < count && count <= MOST;
        if fits && load <= 1_000_000_000 {
            self.window.record_run(second, count, load);
            self.end = second + count;
            add(out, "done");
        }
    }

    fn add_average(&self, now: u64, out: &mut String)
        requires { self.now.window.end ≤ now }
    {
        match self.window.average(now) {
            Some(average) => add_average(out, &average),
            None => add(out, "none"),
        }
    }
}
