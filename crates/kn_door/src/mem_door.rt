//! A door in memory, and the callers that come through it.
ghost use Rattle.std.specs.Prelude.{⊤};

use crate::close::Close;
use crate::door::Door;
use crate::guest::Guest;
use crate::watch::Watch;
use kn_io::Caller;
use std::sync::Wait;
use std::sync::atomic::{AtomicBool, AtomicU64, Ordering};

/// A door in memory, which lets so many connections in, and none once it is closed. Of its clients some leave while they wait.
#[derive(Drop)]
pub struct MemDoor {
    most: u64,
    taken: AtomicU64,
    closed: AtomicBool,
    /// At each so-manieth question whether a client has left, it has; at none where this is 0.
    patience: u64,
    asked: AtomicU64,
}

impl MemDoor {
    /// An open door for so many connections, of which no client leaves.
    pub fn new(most: u64) -> MemDoor {
        MemDoor::of_leavers(most, 0)
    }

    /// An open door for so many connections. At each `patience`th question whether a client has left, it has.
    pub fn of_leavers(most: u64, patience: u64) -> MemDoor {
        MemDoor {
            most,
            taken: AtomicU64::new(0),
            closed: AtomicBool::new(false),
            patience,
            asked: AtomicU64::new(0),
        }
    }

    /// How many times it was asked whether a client has left.
    pub fn asked(&self) -> u64 {
        self.asked.load(Ordering::SeqCst)
    }
}

impl Close for MemDoor {
    fn close(&self) {
        self.closed.store(true, Ordering::SeqCst);
    }
}

impl<C: Caller> Watch<Guest<C>> for MemDoor {
    ghost leaves = { ⊤ };

    fn has_left(&self, caller: &mut Guest<C>) -> bool {
        let asked = self.asked.fetch_add(1, Ordering::SeqCst);
        let left = self.patience > 0 && asked % self.patience == self.patience - 1;
        if left {
            caller.leave();
        }
        left
    }

    fn often_ms(&self) -> u64 {
        1
    }
}

impl<C: Caller> Door<Guest<C>> for MemDoor {
    ghost lets_in = { λ _. ⊤ };

    ghost shut = { λ _. ⊤ };

    fn next<R: Wait>(&self, _rt: &R, _caller: &mut Guest<C>) -> bool {
        !self.closed.load(Ordering::SeqCst) && self.taken.fetch_add(1, Ordering::SeqCst) < self.most
    }

    fn is_closed(&self) -> bool {
        self.closed.load(Ordering::SeqCst)
    }

    fn waiting<R: Wait>(&self, _rt: &R) -> u64 {
        match self.closed.load(Ordering::SeqCst) {
            true => 0,
            false => self.most.saturating_sub(self.taken.load(Ordering::SeqCst)),
        }
    }
}
