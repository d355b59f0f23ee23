ghost use Rattle.std.specs.Prelude.{◌≡◌, ◌↔◌, ◌+◌, ◌-◌, ◌^◌, ◌<◌, ◌≤◌, IsFalse, IsTrue};
ghost use Rattle.std.specs.Bool.{OnFalse, OnTrue};

use std::marker::Model;

/// Bounds how many requests are in, and how many of them run. Its slots are its depth and its maximum together.
/// Contracts see its depth, its maximum, how many are in flight, how many of those are running, and its capacity.
#[derive(Drop)]
pub struct Breaker {
    depth: u64,
    max: u64,
    in_flight: u64,
    running: u64,
    capacity: u64,
}

impl Model for Breaker {
    ghost use Rattle.kn_breaker.specs.Breaker.{State, IsWithin};

    ghost Value = { State };

    ghost view = { λ b. record { depth = b.depth; max = b.max; in_flight = b.in_flight; running = b.running; capacity = b.capacity } };

    ghost invariant = { λ b. IsWithin (record { depth = b.depth; max = b.max; in_flight = b.in_flight; running = b.running; capacity = b.capacity }) };
}

impl Breaker {
    /// An empty breaker. Depth and max are from 1 to 2^32.
    pub fn new(depth: u64, max: u64, capacity: u64) -> Breaker
        requires depth_least { 1 ≤ depth }
        requires depth_most { depth ≤ 2 ^ 32 }
        requires max_least { 1 ≤ max }
        requires max_most { max ≤ 2 ^ 32 }
        requires capacity { capacity ≤ max }
        ensures { result ≡ record { depth = depth; max = max; in_flight = 0; running = 0; capacity = capacity } }
    {
        Breaker {
            depth,
            max,
            in_flight: 0,
            running: 0,
            capacity,
        }
    }

    /// Takes a slot. It is refused exactly where all slots are taken, those of the depth and those of the maximum.
    pub fn enter(&mut self) -> bool
        ensures full { IsFalse result ↔ (self.old.in_flight ≡ self.old.depth + self.old.max) }
        ensures entered { OnTrue result (self.new ≡ record self.old { in_flight = self.old.in_flight + 1 }) }
        ensures refused { OnFalse result (self.new ≡ self.old) }
    {
        if self.in_flight == self.depth + self.max {
            return false;
        }
        self.in_flight += 1;
        true
    }

    /// Starts one of those in flight that don't run. It is refused exactly where the capacity is used up.
    pub fn acquire(&mut self) -> bool
        requires { self.old.running < self.old.in_flight }
        ensures full { IsFalse result ↔ (self.old.capacity ≤ self.old.running) }
        ensures acquired { OnTrue result (self.new ≡ record self.old { running = self.old.running + 1 }) }
        ensures refused { OnFalse result (self.new ≡ self.old) }
    {
        if self.running >= self.capacity {
            return false;
        }
        self.running += 1;
        true
    }

    /// Ends one that is running, and gives its slot back.
    pub fn release(&mut self)
        requires { 0 < self.old.running }
        ensures { self.new ≡ record self.old { in_flight = self.old.in_flight - 1; running = self.old.running - 1 } }
    {
        self.in_flight -= 1;
        self.running -= 1;
    }

    /// Gives back the slot of one that isn't running.
    pub fn leave(&mut self)
        requires { self.old.running < self.old.in_flight }
        ensures { self.new ≡ record self.old { in_flight = self.old.in_flight - 1 } }
    {
        self.in_flight -= 1;
    }

    /// Whether the capacity is used up, so that none may start.
    pub fn is_used_up(&self) -> bool
        ensures { IsTrue result ↔ (self.now.capacity ≤ self.now.running) }
    {
        self.running >= self.capacity
    }

    /// How many are in flight and not running.
    pub fn waiting(&self) -> u64
        ensures { result + self.now.running ≡ self.now.in_flight }
    {
        self.in_flight - self.running
    }

    /// Changes the capacity, at most the maximum. It stops none that is running.
    pub fn set_capacity(&mut self, n: u64)
        requires { n ≤ self.old.max }
        ensures { self.new ≡ record self.old { capacity = n } }
    {
        self.capacity = n;
    }
}
