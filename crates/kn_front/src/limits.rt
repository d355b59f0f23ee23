//! How patient a front is.
ghost use Rattle.std.specs.Prelude.{◌≤◌};

use libc::RLIMIT_NOFILE;
use libc::types::rlimit;
use std::time::Duration;

/// How many connections wait in a front at most.
pub const MOST_WAITING: usize = 4096;

/// How long clients may take, and how many of them may wait.
#[derive(Clone, Copy)]
pub struct Limits {
    /// How long a connection may be silent before its request begins.
    pub idle: Duration,
    /// How long head and body of a request may take in all, from when a caller takes the connection, where its first bytes are
    /// there.
    pub read: Duration,
    /// How many connections wait at once, the silent ones and those that no caller has taken yet, from 1 to 4,096: less is one,
    /// and more is as many as 4,096.
    pub waiting: usize,
}

/// How many descriptors the process may have open.
fn descriptors() -> u64 {
    let mut limit = rlimit {
        rlim_cur: 0,
        rlim_max: 0,
    };
    if libc::getrlimit(RLIMIT_NOFILE, &mut limit) == 0 {
        limit.rlim_cur
    } else {
        0
    }
}

/// How many connections may wait where so many descriptors are needed for something else: as many as the process may have open
/// besides, from 1 to 4,096.
pub fn room_for(needed: u64) -> usize
    ensures some { 1 ≤ result }
    ensures few { result ≤ 4096 }
{
    let left = descriptors().saturating_sub(needed);
    left.clamp(1, MOST_WAITING as u64) as usize
}
