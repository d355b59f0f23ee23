//! Which pass waits for which request. An event calls those passes alone whose request it assigned to a pod, or whose request
//! runs or has ended by it.
ghost use Rattle.std.specs.Prelude.{◌≡◌, ◌++◌, ◌∷◌, [], ◌==◌, IfOk, None, option_to_list};
ghost use Rattle.std.specs.List.Sorted.{IsPermutation};
ghost use Rattle.kn_waiters.specs.Waiting.{waiter, woken_by, rouses, AreByRequest, HasFreePlace, IsFull, IsStartOf, IsPlaceIn, TakesOut, Asks, Calls, Forgets};

use kn_event::{Entry, Memory, Row};
use std::alloc::Global;
use std::marker::Model;

/// A pass that waits for a request.
#[derive(Clone, Copy)]
pub struct Waiter {
    pub request: u64,
    pub pass: u64,
}

#[derive(Drop)]
pub struct Waiters {
    /// How many passes may wait, or be called, at once.
    room: u64,
    /// In the order of their requests.
    waiting: Vec<Waiter>,
    /// Passes whose bell is to be rung.
    called: Vec<u64>,
}

impl Model for Waiters {
    ghost use Rattle.std.specs.Prelude.{◌≤◌, vec_capacity};
    ghost use Rattle.kn_waiters.specs.Waiting.{WaitersState, IsRoomy};

    ghost Value = { WaitersState };

    ghost view = { λ w. record { room = w.room; waiting = w.waiting.items; called = w.called.items } };

    ghost invariant = { λ w. IsRoomy w.waiting.items w.called.items w.room × (w.room ≤ vec_capacity w.waiting) × (w.room ≤ vec_capacity w.called) };
}

/// The request whose wait a row ends.
fn woken_by(row: &Row) -> Option<u64>
    ensures { result ≡ woken_by row.now }
{
    match *row {
        Row::Assign(r, _) | Row::Run(r) => Some(r),
        Row::Finish(r, _) | Row::Expire(r) | Row::Cancel(r) | Row::LostRequest(r) => Some(r),
        _ => None,
    }
}

/// The place of the first whose request isn't below this one.
fn place_of(waiting: &[Waiter], request: u64) -> usize
    requires { AreByRequest waiting.now }
    ensures { IsStartOf request waiting.now result }
{
    waiting.partition_point(|w| w.request < request)
}

/// Where the pass stands, if it waits for the request.
fn find(waiting: &[Waiter], request: u64, pass: u64) -> Option<usize>
    requires { AreByRequest waiting.now }
    ensures { IsPlaceIn (waiter request pass) waiting.now result }
{
    let first = place_of(waiting, request);
    for place in first..waiting.len() {
        if waiting[place].request != request {
            return None;
        }
        if waiting[place].pass == pass {
            return Some(place);
        }
    }
    None
}

impl Waiters {
    /// Nobody, with room for so many.
    pub fn new(alloc: Global, room: u64) -> Result<Waiters, Memory>
        ensures { IfOk result (λ w. w ≡ record { room = room; waiting = []; called = [] }) }
    {
        let Ok(waiting) = Vec::with_capacity(alloc, room as usize) else {
            return Err(Memory);
        };
        let Ok(called) = Vec::with_capacity(alloc, room as usize) else {
            return Err(Memory);
        };
        Ok(Waiters {
            room,
            waiting,
            called,
        })
    }

    /// The pass asks for a request: it waits no more for the one that it asked for before, and waits for this one where `waits`
    /// says so and there is room.
    pub fn ask(&mut self, pass: u64, before: Option<u64>, request: u64, waits: bool)
        ensures { Asks pass before request waits self.old self.new }
    {
        self.forget(pass, before);
        if waits {
            self.put(request, pass);
        }
    }

    /// The pass waits no more for the request that it asked for before, if it did.
    fn forget(&mut self, pass: u64, before: Option<u64>)
        ensures { Forgets pass before self.old self.new }
    {
        if let Some(before) = before {
            self.remove(before, pass);
        }
    }

    /// The pass waits for the request, where there is room.
    fn put(&mut self, request: u64, pass: u64)
        ensures same { (self.new.room ≡ self.old.room) × (self.new.called ≡ self.old.called) }
        ensures put { HasFreePlace self.old → IsPermutation (waiter request pass ∷ self.old.waiting) self.new.waiting }
        ensures full { IsFull self.old → self.new ≡ self.old }
    {
        let count = self.waiting.len() + self.called.len();
        if (count as u64) < self.room {
            let place = place_of(&self.waiting, request);
            let _ = self.waiting.insert(place, Waiter { request, pass });
        }
    }

    /// The pass waits for the request no more.
    fn remove(&mut self, request: u64, pass: u64)
        ensures same { (self.new.room ≡ self.old.room) × (self.new.called ≡ self.old.called) }
        ensures out { TakesOut (waiter request pass) self.old.waiting self.new.waiting }
    {
        if let Some(place) = find(&self.waiting, request, pass) {
            let _ = self.waiting.remove(place);
        }
    }

    /// Calls all that wait for the request.
    fn call(&mut self, request: u64)
        ensures { Calls (λ r. request == r) self.old self.new }
    {
        let place = place_of(&self.waiting, request);
        while place < self.waiting.len() {
            if self.waiting[place].request != request {
                return;
            }
            let waiter = self.waiting.remove(place);
            self.called.push_reserved(waiter.pass);
        }
    }

    /// Calls all whose wait one of these entries ends. Mostly nobody waits, and then the entries aren't walked.
    #[inline(always)]
    pub fn call_all(&mut self, entries: &[Entry])
        ensures { Calls (rouses entries.now) self.old self.new }
    {
        if self.waiting.is_empty() {
            return;
        }
        self.call_each(entries);
    }

    /// The same, where somebody may wait.
    #[inline(never)]
    fn call_each(&mut self, entries: &[Entry])
        ensures { Calls (rouses entries.now) self.old self.new }
    {
        for entry in entries {
            if let Some(request) = woken_by(&entry.row) {
                self.call(request);
            }
        }
    }

    /// Takes out a pass that was called.
    pub fn next_called(&mut self) -> Option<u64>
        ensures same { (self.new.room ≡ self.old.room) × (self.new.waiting ≡ self.old.waiting) }
        ensures next { self.old.called ≡ self.new.called ++ option_to_list result }
        ensures none { result ≡ None → self.old.called ≡ [] }
    {
        self.called.pop()
    }
}
