//! What threads say to each other.
use std::sync::atomic::{AtomicBool, AtomicU64};

#[derive(Drop)]
pub struct Notes {
    /// Whether one was told that another has the turn.
    pub busy: AtomicBool,
    /// How many waits for a request there were.
    pub waits: AtomicU64,
    /// How many threads are done.
    pub done: AtomicU64,
    /// How many rows were taken out.
    pub taken: AtomicU64,
}

impl Notes {
    pub fn new() -> Notes {
        Notes {
            busy: AtomicBool::new(false),
            waits: AtomicU64::new(0),
            done: AtomicU64::new(0),
            taken: AtomicU64::new(0),
        }
    }
}
