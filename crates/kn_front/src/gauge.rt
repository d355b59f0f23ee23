//! How many callers do something at this moment.
ghost use Rattle.std.specs.Prelude.{◌≡◌, true, false};

use std::sync::atomic::{AtomicU64, Ordering};

/// How many callers do something at this moment. Each keeps in mind whether it is counted, and is counted once. All threads share it.
#[derive(Drop)]
pub(crate) struct Gauge {
    count: AtomicU64,
}

impl Gauge {
    /// Nobody so far.
    pub(crate) fn new() -> Gauge {
        Gauge {
            count: AtomicU64::new(0),
        }
    }

    /// How many there are.
    pub(crate) fn count(&self) -> u64 {
        self.count.load(Ordering::SeqCst)
    }

    /// One more, unless it is counted already.
    pub(crate) fn enter(&self, counted: &mut bool)
        ensures { counted.new ≡ true }
    {
        if !*counted {
            self.count.fetch_add(1, Ordering::SeqCst);
            *counted = true;
        }
    }

    /// One less, if it was counted.
    pub(crate) fn leave(&self, counted: &mut bool)
        ensures { counted.new ≡ false }
    {
        if *counted {
            self.count.fetch_sub(1, Ordering::SeqCst);
            *counted = false;
        }
    }
}
