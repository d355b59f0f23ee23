//! Several threads, each with its own pass.
ghost use Rattle.std.specs.Prelude.{◌≡◌, ◌≤◌, length};
ghost use Rattle.kn_tests_cell.specs.Numbers.{IsLeaf};
ghost use Rattle.kn_tests_cell.specs.Workers.{AreLeaves};

use crate::bells::{Waiting, queue};
use crate::calls::{Call, event_of};
use crate::crowd::{meet, mix, scribe, serve};
use crate::notes::Notes;
use crate::worker::Worker;
use kn_cell::RevisionCell;
use kn_event::{Act, Event};
use std::alloc::Global;
use std::sync::Wait;
use std::sync::atomic::Ordering;
use std::thread::{Threads, for_each_mut};

/// What a thread does.
#[derive(Clone, Copy)]
pub enum Work {
    Nothing,
    /// So many arrivals, each of which is finished.
    Serve(u64),
    Mix,
    /// The last thread looks until another, which tries, is told that it has the turn.
    Meet,
    Queue(Waiting),
}

fn queue_of(by_course: bool, others: u64, end: Option<Event>) -> Work {
    Work::Queue(Waiting {
        by_course,
        others,
        end,
    })
}

/// The work of these words.
pub fn work_of(words: &str) -> Work {
    let (what, rest) = words.split_once(' ').unwrap_or((words, ""));
    let number = rest.parse().unwrap_or(0);
    match what {
        "serve" => Work::Serve(number),
        "mix" => Work::Mix,
        "meet" => Work::Meet,
        "looks" => queue_of(false, number, None),
        "courses" => queue_of(true, number, None),
        "ends" => queue_of(false, 1, Some(event_of(rest))),
        _ => Work::Nothing,
    }
}

const PASS: Event = Event {
    time: 0,
    act: Act::Pass,
};

/// The work of thread `number` of so many.
fn work_on<R: Wait>(
    rt: &R,
    alloc: Global,
    cell: &RevisionCell,
    worker: &mut Worker,
    work: Work,
    number: u64,
    count: u64,
    notes: &Notes,
)
    requires { IsLeaf cell.now count worker.old.pass }
    ensures { IsLeaf cell.now count worker.new.pass }
{
    let pass = &mut worker.pass;
    if worker.takes {
        scribe(rt, alloc, cell, pass, worker.room, number, notes);
        return;
    }
    match work {
        Work::Nothing => {}
        Work::Serve(requests) => serve(rt, cell, pass, requests),
        Work::Mix => mix(rt, cell, pass, number),
        Work::Meet if number.saturating_add(1) == count => meet(
            rt,
            cell,
            pass,
            Call::Look(0),
            notes,
        ),
        Work::Meet => meet(rt, cell, pass, Call::Try(PASS), notes),
        Work::Queue(how) => queue(rt, cell, pass, &how, notes),
    }
    notes.done.fetch_add(1, Ordering::SeqCst);
}

/// Each pass's work, in a thread of its own where one can be made.
pub fn work_all<R: Threads + Wait + Sync>(
    rt: &R,
    alloc: Global,
    cell: &RevisionCell,
    workers: &mut [Worker],
    work: Work,
    notes: &Notes,
)
    requires some { 1 ≤ length workers.old }
    requires each { AreLeaves cell.now (length workers.old) workers.old }
    ensures len { length workers.new ≡ length workers.old }
    ensures each { AreLeaves cell.now (length workers.old) workers.new }
{
    let count = workers.len();
    for_each_mut(
        rt,
        workers,
        count,
        &|number: usize, worker: &mut Worker|
            requires { IsLeaf cell.now count worker.now.pass }
            ensures { IsLeaf cell.entry.now count worker.exit.now.pass }
        {
            work_on(
                rt,
                alloc,
                cell,
                worker,
                work,
                number as u64,
                count as u64,
                notes,
            )
        },
    );
}
