//! How long a slot goes on.
ghost use Rattle.std.specs.Prelude.{◌≡◌, ◌≤◌, ◌<◌, ◌^◌, ◌⊎◌, ℕ, true, false};

use crate::notes::Notes;
use kn_door::{Door, Watch};
use kn_io::Caller;
use kn_request::Served;
use std::sync::Wait;

/// How long a slot goes on, and who looks after its clients meanwhile.
pub trait Pace<C: Caller>: Watch<C> {
    /// What holds where a slot goes on behind so many requests.
    ghost begins: { Self → ℕ → Type 0 };

    /// What holds where a slot ends behind so many requests.
    ghost ends: { Self → ℕ → Type 0 };

    /// Whether one more request is to be served, behind so many: it may wait until somebody is there. Nothing that the
    /// caller tells changes.
    fn goes_on<R: Wait>(&self, rt: &R, caller: &mut C, served: u64) -> bool
        ensures kept { C.Sink.kept caller.new ≡ C.Sink.kept caller.old }
        ensures held { C.Sink.held caller.new ≡ C.Sink.held caller.old }
        ensures left { C.Source.left caller.new ≡ C.Source.left caller.old }
        ensures given { C.Source.given caller.new ≡ C.Source.given caller.old }
        ensures faults { C.Faulty.faults caller.new ≡ C.Faulty.faults caller.old }
        ensures begins { result ≡ true → begins self.now served }
        ensures few { result ≡ true → served < 10 ^ 12 }
        ensures ends { result ≡ false → ends self.now served };

    /// What became of one. It promises nothing.
    fn note<R: Wait>(&self, rt: &R, served: &Served);
}

/// Just so many rounds, and nobody looks after the clients.
#[derive(Clone, Copy, Drop)]
pub struct Rounds {
    pub count: u32,
}

impl<C: Caller> Watch<C> for Rounds {
    ghost leaves = { ⊥ };

    fn has_left(&self, _caller: &mut C) -> bool {
        false
    }

    fn often_ms(&self) -> u64 {
        10_000
    }
}

impl<C: Caller> Pace<C> for Rounds {
    ghost begins = { λ r n. n < r.count };

    ghost ends = { λ r n. r.count ≤ n };

    fn goes_on<R: Wait>(&self, _rt: &R, _caller: &mut C, served: u64) -> bool {
        served < self.count as u64
    }

    fn note<R: Wait>(&self, _rt: &R, _served: &Served) {}
}

/// As long as a door hands connections out, and 10^12 requests at most. The door looks after the clients.
#[derive(Drop)]
pub struct ByDoor<'a, D, N> {
    pub door: &'a D,
    notes: &'a N,
}

impl<'a, D, N> ByDoor<'a, D, N> {
    /// What became of each request is told to the notes.
    pub fn new(door: &'a D, notes: &'a N) -> ByDoor<'a, D, N>
        ensures { result.door.now ≡ door.now }
    {
        ByDoor { door, notes }
    }
}

impl<'a, C: Caller, D: Door<C>, N: Notes> Watch<C> for ByDoor<'a, D, N> {
    ghost leaves = { D.Watch.leaves };

    fn has_left(&self, caller: &mut C) -> bool {
        self.door.has_left(caller)
    }

    fn often_ms(&self) -> u64 {
        self.door.often_ms()
    }
}

impl<'a, C: Caller, D: Door<C>, N: Notes> Pace<C> for ByDoor<'a, D, N> {
    ghost begins = { λ p n. (n < 10 ^ 12) × D.lets_in p.door.now };

    ghost ends = { λ p n. (10 ^ 12 ≤ n) ⊎ D.shut p.door.now };

    fn goes_on<R: Wait>(&self, rt: &R, caller: &mut C, served: u64) -> bool {
        served < 1_000_000_000_000 && self.door.next(rt, caller)
    }

    fn note<R: Wait>(&self, rt: &R, served: &Served) {
        self.notes.note(rt, served);
    }
}
