//! Whether the threads of a server can be made.

use std::sync::{Mutex, Wait};
use std::thread;
use std::thread::Threads;

/// Whether so many threads can be made beside this one. They are there all at once, and none is left afterwards.
pub fn can_make_threads<R: Threads + Wait + Sync>(rt: &R, count: u64) -> bool {
    let gate = Mutex::new(());
    thread::scope(thread::scope_env(), rt, |scope| {
        // Each waits at the gate until the last one is made.
        let _shut = gate.lock(rt);
        for _ in 0..count {
            if scope.spawn(|| drop(gate.lock(rt))).is_err() {
                return false;
            }
        }
        true
    })
}
