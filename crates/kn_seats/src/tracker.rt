//! One pod: who runs there and who is queued.
ghost use Rattle.std.specs.Prelude.{false, ◌≡◌, ◌+◌, ◌^◌, ◌<◌, ◌&&◌, nat_lt, length};

use crate::cells::Queue;

/// A pod with its limit, how many requests run there, and the queue of those that wait there.
#[derive(Clone, Copy)]
pub struct Tracker {
    pub number: u64,
    pub limit: u64,
    pub running: u64,
    pub queue: Queue,
    pub draining: bool,
}

impl Tracker {
    ghost use Rattle.kn_seats.specs.declared.cells.Cells.{Cells};
    ghost use Rattle.kn_seats.specs.Pods.{has_free_seat, is_full};
    ghost use Rattle.kn_seats.specs.Kept.{seen};

    /// A pod without requests.
    pub fn idle(number: u64, limit: u64) -> Tracker
        ensures { result ≡ record { number = number; limit = limit; running = 0; queue = record { first = 0; last = 0; count = 0 }; draining = false } }
    {
        Tracker {
            number,
            limit,
            running: 0,
            queue: Queue::empty(),
            draining: false,
        }
    }

    /// Whether fewer run than the limit. Limit 0 is no limit.
    pub fn has_free_seat(&self) -> bool
        ensures { (cells : Cells) → result ≡ has_free_seat (seen cells self.now) }
    {
        self.limit == 0 || self.running < self.limit
    }

    /// Whether one is queued that may run.
    pub fn has_next(&self) -> bool
        ensures { (cells : Cells) → result ≡ (has_free_seat (seen cells self.now) && nat_lt 0 (length (seen cells self.now).queued)) }
    {
        self.has_free_seat() && self.queue.count > 0
    }

    /// Whether ten are queued for each that may run. A pod without a limit is never full.
    #[tactic(auto, using(crate::proofs::Chains::length_requests))]
    pub fn is_full(&self) -> bool
        requires { self.now.running + self.now.queue.count < 2 ^ 63 }
        ensures { (cells : Cells) → result ≡ is_full (seen cells self.now) }
    {
        let requests = self.running + self.queue.count as u64;
        self.limit > 0 && requests / 11 >= self.limit
    }
}
