//! What the requests and pods of a revision have still to do, noted entry by entry.
ghost use Rattle.std.specs.Prelude.{◌≡◌, ◌+◌, ◌≤◌, ◌<◌, ◌^◌, ◌==◌, ◌++◌, ◌∷◌, [], Some, not, false, nat_lt, length, slice_get, IfOk, IfSome, IfNone};
ghost use Rattle.std.specs.List.{All, filter};
ghost use Rattle.std.specs.List.Sorted.{IsPermutation};
ghost use Rattle.kn_event.specs.declared.entry.Entry.{Entry as EntryValue};
ghost use Rattle.kn_agenda.specs.declared.job.Job.{Job as JobValue};
ghost use Rattle.kn_agenda.specs.declared.agenda.Start.{Start as StartValue};
ghost use Rattle.kn_agenda.specs.Due.{is_before};
ghost use Rattle.kn_agenda.specs.Finishes.{Finish, finish};
ghost use Rattle.kn_agenda.specs.Keeps.{Hears};

use crate::job::Job;
use kn_event::{Entry, Memory, Row};
use kn_record::facts::fact_laws;
use kn_sizes::sizes::size_laws;
use std::alloc::Global;
use std::cmp::Reverse;
use std::collections::BinaryHeap;
use std::marker::Model;

/// At most so many pods start at a time, since no more are created where so many don't drain.
const STARTING_MOST: usize = 500;

/// A starting pod, and when it was created.
#[derive(Clone, Copy)]
pub struct Start {
    pub pod: u64,
    pub time: u64,
}

/// What is due of requests that have begun and of starting pods, in room that is taken once.
///
/// Contracts see the requests that have begun with the times when they finish, the starting pods with the times when they were
/// created, and how many requests it has room for. A request that ended stays until it is the first, so that what is noted stays
/// true, and nobody is looked for.
pub struct Agenda {
    finishes: BinaryHeap<Reverse<(u64, u64)>>,
    starting: Vec<Start>,
}

impl Drop for Agenda {
    fn drop(self) {
        let Agenda {
            finishes: _,
            starting: _,
        } = self;
    }
}

impl Model for Agenda {
    ghost use Rattle.std.specs.Prelude.{◌≤◌, vec_capacity};
    ghost use Rattle.std.specs.BinaryHeap.{heap_capacity, heap_items};
    ghost use Rattle.kn_agenda.specs.Agenda.{AgendaState, AreInTime, IsInOrder};

    ghost Value = { AgendaState };

    ghost view = { λ a. record { finishes = heap_items a.finishes; starting = a.starting.items; room = heap_capacity a.finishes } };

    ghost invariant = { λ a. record { ordered : IsInOrder (heap_items a.finishes); starting : 500 ≤ vec_capacity a.starting; times : AreInTime a.starting.items } };
}

impl Agenda {
    /// Nothing is due, and there is room for so many requests.
    pub fn new(alloc: Global, room: usize) -> Result<Agenda, Memory>
        ensures finishes { IfOk result (λ a. a.finishes ≡ []) }
        ensures starting { IfOk result (λ a. a.starting ≡ []) }
        ensures room { IfOk result (λ a. a.room ≡ room) }
    {
        let finishes = match BinaryHeap::with_capacity(alloc, room) {
            Ok(finishes) => finishes,
            Err(_) => return Err(Memory),
        };
        let starting = match Vec::with_capacity(alloc, STARTING_MOST) {
            Ok(starting) => starting,
            Err(_) => return Err(Memory),
        };
        Ok(Agenda { finishes, starting })
    }

    /// Takes note of a request that begins at this time.
    fn begin(&mut self, r: u64, time: u64, jobs: &[Job])
        requires times { time ≤ 2 ^ 42 }
        requires services { All (λ (j : JobValue). j.service ≤ 3600000) jobs.now }
        ensures added { (j : JobValue) → slice_get jobs.now r ≡ Some j → length self.old.finishes < self.old.room → IsPermutation (finish (time + j.service) r ∷ self.old.finishes) self.new.finishes }
        ensures starting { self.new.starting ≡ self.old.starting }
        ensures room { self.old.room ≤ self.new.room }
    {
        if let Some(job) = jobs.get(r as usize) {
            let _ = self.finishes.push(Reverse((time + job.service, r)));
        }
    }

    /// Takes note of a pod that starts at this time.
    fn start(&mut self, pod: u64, time: u64)
        requires { time ≤ 2 ^ 42 }
        ensures added { length self.old.starting < 500 → self.new.starting ≡ self.old.starting ++ record { pod = pod; time = time } ∷ [] }
        ensures finishes { self.new.finishes ≡ self.old.finishes }
        ensures room { self.new.room ≡ self.old.room }
    {
        let _ = self.starting.push(Start { pod, time });
    }

    /// Takes note of a pod that starts no more.
    fn leave(&mut self, pod: u64)
        ensures left { self.new.starting ≡ filter (λ (x : StartValue). not (pod == x.pod)) self.old.starting }
        ensures finishes { self.new.finishes ≡ self.old.finishes }
        ensures room { self.new.room ≡ self.old.room }
    {
        self.starting.retain(|s| pod != s.pod);
    }

    /// Takes note of one entry.
    fn hear(&mut self, e: &Entry, jobs: &[Job])
        requires times { e.now.time ≤ 2 ^ 42 }
        requires services { All (λ (j : JobValue). j.service ≤ 3600000) jobs.now }
        ensures keeps { Hears jobs.now (e.now ∷ []) self.old self.new }
        ensures room { self.old.room ≤ self.new.room }
    {
        fact_laws();
        size_laws();
        match e.row {
            Row::Assign(r, _) | Row::Run(r) => self.begin(r, e.time, jobs),
            Row::Create(p, _) => self.start(p, e.time),
            Row::Ready(p) | Row::Drain(p) | Row::Remove(p) | Row::LostPod(p) => self.leave(p),
            _ => {}
        }
    }

    /// Takes note of the entries of an event, or of an opening, one after the other.
    pub fn hear_all(&mut self, entries: &[Entry], jobs: &[Job])
        requires times { All (λ (e : EntryValue). e.time ≤ 2 ^ 42) entries.now }
        requires services { All (λ (j : JobValue). j.service ≤ 3600000) jobs.now }
        ensures keeps { Hears jobs.now entries.now self.old self.new }
        ensures room { self.old.room ≤ self.new.room }
    {
        fact_laws();
        for e in entries {
            self.hear(e, jobs);
        }
    }

    /// The first starting pod.
    pub fn first_start(&self) -> Option<Start>
        ensures first { result ≡ slice_get self.now.starting 0 }
        ensures times { IfSome result (λ x. x.time ≤ 2 ^ 42) }
    {
        self.starting.first().copied()
    }

    /// The least time, with the least number of it; none exactly where there is none.
    pub fn top(&self) -> Option<(u64, u64)>
        ensures item { IfSome result (λ p. slice_get self.now.finishes 0 ≡ Some (finish p.0 p.1)) }
        ensures first { IfSome result (λ p. All (λ f. is_before f.0.0 p.0 (nat_lt f.0.1 p.1) ≡ false) self.now.finishes) }
        ensures none { IfNone result (self.now.finishes ≡ []) }
    {
        match self.finishes.peek() {
            Some(top) => Some(top.0),
            None => None,
        }
    }

    /// Lets the first go.
    pub fn drop_top(&mut self)
        ensures rest { (f : Finish) → slice_get self.old.finishes 0 ≡ Some f → IsPermutation self.old.finishes (f ∷ self.new.finishes) }
        ensures fewer { 0 < length self.old.finishes → length self.new.finishes + 1 ≡ length self.old.finishes }
        ensures starting { self.new.starting ≡ self.old.starting }
        ensures room { self.new.room ≡ self.old.room }
    {
        let _ = self.finishes.pop();
    }
}
