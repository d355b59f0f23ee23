//! The slots beside each other in threads.
ghost use Rattle.std.specs.Prelude.{◌≤◌, ◌<◌, ◌^◌, ℕ, length};
ghost use Rattle.kn_event.specs.Lists.{EachIs};
ghost use Rattle.kn_session.specs.Lists.{EachDone};
ghost use Rattle.kn_session.specs.Passes.{HasPass};
ghost use Rattle.kn_session.specs.Rounds.{HasServed};

use crate::pace::Pace;
use crate::rounds::serve_rounds;
use crate::shared::Shared;
use crate::sided::Sided;
use kn_io::{Caller, Clock, Gate, PodLink};
use kn_request::Slot;
use std::sync::Wait;
use std::thread;
use std::thread::{Threads, join_mut};

/// What a thread does with its own part of the work, beside what all share.
pub trait Job<X> {
    ghost ready: { X → Self → Type 0 };

    ghost done: { X → ℕ → Self → Self → Type 0 };

    fn work<R: Wait>(&mut self, rt: &R, shared: &X, i: u64)
        requires few { i < 1024 }
        requires ready { ready shared.now self.old }
        ensures { done shared.now i self.old self.new };
}

impl<'a, C: Caller, L: PodLink, K: Clock, G: Gate, P: Pace<C>> Job<Shared<'a, K, G, P>>
    for Slot<C, L> {
    ghost ready = { λ x s. HasPass x.cell.now s.work.pass × (x.common.now.apart ≤ 10 ^ 12) };

    ghost done = { λ x i s t. HasServed ⟦<Slot<C, L> as Sided>⟧.at K.reading P.Watch.leaves P.begins P.ends
        x.common.now i s t };

    fn work<R: Wait>(&mut self, rt: &R, shared: &Shared<'a, K, G, P>, i: u64) {
        serve_rounds(rt, shared.cell, shared.common, self, i);
        shared.left.done();
    }
}

/// Each job in a thread of its own, where one can be made.
fn work_all<X: Sync, J: Job<X> + Send, R: Threads + Wait + Sync>(rt: &R, shared: &X, jobs: &mut [J])
    requires few { length jobs.old ≤ 1024 }
    requires ready { EachIs (J.ready shared.now) jobs.old }
    ensures { EachDone (J.done shared.now) jobs.old jobs.new }
{
    let count = jobs.len();
    if count > 0 {
        thread::for_each_mut(
            rt,
            jobs,
            count,
            &|i, job: &mut J| job.work(rt, shared, i as u64),
        );
    }
}

/// The jobs, and beside them one more thread, which is the one that comes last where no thread can be made.
pub fn beside<X: Sync, J: Job<X> + Send, F: FnMut() + Send, R: Threads + Wait + Sync>(
    rt: &R,
    shared: &X,
    jobs: &mut [J],
    other: &mut F,
)
    requires few { length jobs.old ≤ 1024 }
    requires ready { EachIs (J.ready shared.now) jobs.old }
    requires other { F.pre other.old }
    ensures jobs { EachDone (J.done shared.now) jobs.old jobs.new }
    ensures other { F.step other.old tt other.new }
{
    let mut work = ||
        requires { (length jobs.now ≤ 1024) × EachIs (J.ready shared.now) jobs.now }
        ensures { EachDone (J.done shared.entry.now) jobs.entry.now jobs.exit.now }
    { work_all(rt, shared, jobs) };
    join_mut(rt, other, &mut work);
}
