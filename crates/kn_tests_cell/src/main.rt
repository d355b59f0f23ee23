//! Tests of the revision that threads share, of requests at it, of the ticker, and of sessions, over memory. Each line
//! of standard input is a test, and below it is printed what comes of it, which doesn't depend on which thread comes
//! first. Who is late ends the tests.
//!
//! - `cell WORDS|CALLS|WORK`: a cell, calls of its passes by turns, and what each pass does in a thread of its own
//!   then. WORDS, of which each may be left out: `limit=1 depth=10 max=1 pods=1`, as in a setup; `scales` from one pod
//!   on, without any burst capacity; `room=100` rows; `passes=1`; `lasts`, so that the first pass takes rows out;
//!   `addresses=0` of pods. CALLS, between which commas stand, each behind the number of its pass: `on`, `try` or
//!   `arrive` with an event as in a journal; `look`, `course` or `proxied` with a request; `starting` or `probe` with a
//!   pod; `figures`; `rest`; `wait` for a ring; `nap`, a wait in vain. WORK: `serve N` requests; `mix` of acts; `meet`,
//!   until one is told that another has the turn; `looks N` or `courses N`, a request each, finished once it runs and N
//!   wait; `ends EVENT`, two requests, of which the event ends the one that waits.
//! - `request WORDS`: one request, `alone` or while a door is asked whether its client has left, which it has at each
//!   `leaves=N`th question. Further WORDS: those of a cell; `ready`, the pod is Ready; `times=0,10`, the clock's
//!   readings; `fail=0`, which calls of the pods fail.
//! - `ticks WORDS|ACTS`: turns of the ticker, `turn NOW LAST`, and the ticker itself, `ticker START`, which ends at nap
//!   `naps=N`. The probes `fail=0,1` fail.
//! - `serve SLOT ..|COMMAND|WORDS`: a session by `serve_run`, a slot for each word, as `good` or `fail=0`, with the
//!   plan of the command's words. WORDS: `times=`, and a gate that holds each until `slots=2` have come; then it is
//!   `until=1000`.
#![tactic(auto)]

mod answers;
mod bells;
mod calls;
mod cells;
mod crowd;
mod ends;
mod hands;
mod notes;
mod passes;
mod plan;
mod replay;
mod requests;
mod said;
mod sessions;
mod slots;
mod threads;
mod ticks;
mod words;
mod worker;

use std::io;
use std::sync::Wait;
use std::thread::Threads;

/// Shows a line, and below it what comes of it.
fn show<R: Threads + Wait + Sync>(rt: &HostRuntime, threads: &R, line: &str) -> io::Result<()> {
    println!(rt; "{line}")?;
    let (what, rest) = line.split_once(' ').unwrap_or((line, ""));
    match what {
        "cell" => cells::show(rt, threads, rest),
        "request" => requests::show(rt, threads, rest),
        "ticks" => ticks::show(rt, threads, rest),
        "serve" => sessions::show(rt, threads, rest),
        _ => println!(rt; "  no such test"),
    }
}

fn show_lines<R: Threads + Wait + Sync>(rt: &HostRuntime, threads: &R) -> io::Result<()> {
    for line in rt.lines(rt.alloc()) {
        show(rt, threads, line?.as_str())?;
    }
    Ok(())
}

fn main(rt: HostRuntime) -> io::Result<()> {
    show_lines(&rt, &rt)
}
