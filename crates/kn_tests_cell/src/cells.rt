//! A cell, what its passes call by turns, and what they do in threads then.
ghost use Rattle.std.specs.Prelude.{◌≡◌, ◌≤◌, [], length, vec_len, vec_capacity};
ghost use Rattle.kn_tests_cell.specs.Numbers.{IsFirst, IsFor};
ghost use Rattle.kn_tests_cell.specs.Workers.{AreLeaves};

use crate::answers::Answer;
use crate::calls::{Call, NAP_MS, call_of, make};
use crate::ends::show_end;
use crate::notes::Notes;
use crate::passes::{close, cut};
use crate::plan::{Plan, open};
use crate::threads::{Work, work_all, work_of};
use crate::worker::Worker;
use kn_cell::{Pass, RevisionCell};
use kn_event::Memory;
use std::alloc::AllocError;
use std::io;
use std::io::ErrorKind;
use std::sync::Wait;
use std::thread::Threads;
use std::time::Clock;

/// Less than a wait that nobody ends.
pub const MOST_MS: u64 = 15_000;

/// Milliseconds since some start, or 0 where they can't be read.
fn now_ms(rt: &HostRuntime) -> u64 {
    match rt.monotonic() {
        Ok(time) => u64::try_from(time.as_millis()).unwrap_or(u64::MAX),
        Err(_) => 0,
    }
}

/// What isn't done in time ends the tests.
pub fn in_time(ms: u64) -> io::Result<()> {
    match ms < MOST_MS {
        true => Ok(()),
        false => Err(io::Error::from(ErrorKind::TimedOut)),
    }
}

/// What is said of how long a call took.
fn length_of(call: &Call, ms: u64) -> &'static str {
    match *call {
        Call::Wait if ms < MOST_MS => ", soon",
        Call::Wait => ", late",
        Call::Nap if ms < NAP_MS => ", woken",
        Call::Nap => ", slept",
        _ => "",
    }
}

/// Makes a call by the pass of this number.
fn call_by<R: Wait>(
    rt: &R,
    cell: &RevisionCell,
    workers: &mut [Worker],
    number: usize,
    call: Call,
) -> Answer
    requires some { 1 ≤ length workers.old }
    requires each { AreLeaves cell.now (length workers.old) workers.old }
    ensures len { length workers.new ≡ length workers.old }
    ensures each { AreLeaves cell.now (length workers.old) workers.new }
{
    // The first pass stands at the end.
    let place = if 0 < number && number < workers.len() {
        number - 1
    } else {
        workers.len() - 1
    };
    let worker = &mut workers[place];
    make(rt, cell, &mut worker.pass, call)
}

/// Makes a call by the pass of the number before it, and prints what it answers.
fn show_call<R: Wait>(
    rt: &HostRuntime,
    waits: &R,
    cell: &RevisionCell,
    workers: &mut [Worker],
    words: &str,
) -> io::Result<()>
    requires some { 1 ≤ length workers.old }
    requires each { AreLeaves cell.now (length workers.old) workers.old }
    ensures len { length workers.new ≡ length workers.old }
    ensures each { AreLeaves cell.now (length workers.old) workers.new }
{
    let (number, call) = call_of(words);
    let start = now_ms(rt);
    let answer = call_by(waits, cell, workers, number, call);
    let ms = now_ms(rt).saturating_sub(start);
    println!(rt; "  {words}: {answer}{}", length_of(&call, ms))?;
    in_time(ms)
}

/// Makes the calls, between which commas stand.
fn play<R: Wait>(
    rt: &HostRuntime,
    waits: &R,
    cell: &RevisionCell,
    workers: &mut [Worker],
    calls: &str,
) -> io::Result<()>
    requires some { 1 ≤ length workers.old }
    requires each { AreLeaves cell.now (length workers.old) workers.old }
    ensures len { length workers.new ≡ length workers.old }
    ensures each { AreLeaves cell.now (length workers.old) workers.new }
{
    for words in calls.split(", ") {
        show_call(rt, waits, cell, workers, words)?;
    }
    Ok(())
}

/// All passes call by turns, and then work in threads. Answers how many milliseconds they work.
fn use_all<R: Threads + Wait + Sync>(
    rt: &HostRuntime,
    threads: &R,
    cell: &RevisionCell,
    workers: &mut [Worker],
    calls: &str,
    work: Work,
    notes: &Notes,
) -> io::Result<u64>
    requires some { 1 ≤ length workers.old }
    requires each { AreLeaves cell.now (length workers.old) workers.old }
    ensures len { length workers.new ≡ length workers.old }
    ensures each { AreLeaves cell.now (length workers.old) workers.new }
{
    play(rt, threads, cell, workers, calls)?;
    let start = now_ms(rt);
    work_all(threads, rt.alloc(), cell, workers, work, notes);
    Ok(now_ms(rt).saturating_sub(start))
}

/// Uses the cell, and prints what is left.
fn show_cell<R: Threads + Wait + Sync>(
    rt: &HostRuntime,
    threads: &R,
    cell: RevisionCell,
    first: Pass,
    plan: &Plan,
    workers: &mut Vec<Worker>,
    words: &str,
) -> io::Result<()>
    requires first { IsFirst cell plan.now.passes first }
    requires is_for { IsFor plan.now.lasts plan.now.room first }
    requires empty { workers.old.items ≡ [] }
    requires room { plan.now.passes ≤ vec_capacity workers.old }
{
    let (calls, work) = words.split_once('|').unwrap_or((words, ""));
    let work = work_of(work);
    let notes = Notes::new();
    cut(&cell, first, plan, workers);
    let worked = use_all(rt, threads, &cell, workers, calls, work, &notes);
    let (revision, history) = close(cell, workers);
    let shown = show_end(rt, plan, work, &revision, history.items(), &notes, worked);
    drop(revision);
    drop(history);
    shown
}

/// Shows a line: what cell there is, the calls, and the threads' work.
pub fn show<R: Threads + Wait + Sync>(rt: &HostRuntime, threads: &R, line: &str) -> io::Result<()> {
    let (head, words) = line.split_once('|').unwrap_or((line, ""));
    let plan = Plan::of(head);
    let mut workers = Vec::with_capacity(rt.alloc(), plan.passes as usize)?;
    match open(rt.alloc(), &plan) {
        Ok((cell, first)) => show_cell(rt, threads, cell, first, &plan, &mut workers, words),
        Err(Memory) => Err(io::Error::from(AllocError)),
    }
}
