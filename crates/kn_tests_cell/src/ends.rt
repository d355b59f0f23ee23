//! What is left of a cell, and what is printed of it.
use crate::bells::Waiting;
use crate::cells::{MOST_MS, in_time};
use crate::notes::Notes;
use crate::plan::Plan;
use crate::replay::replay;
use crate::threads::Work;
use kn_cell::Past;
use kn_core::Revision;
use kn_event::{Line, Memory, event_line};
use std::alloc::AllocError;
use std::io;
use std::sync::atomic::Ordering;

/// Prints the rows, each as in a journal behind the number of its pass.
pub fn show_rows(rt: &HostRuntime, rows: &[Past]) -> io::Result<()> {
    let mut line = Line::new();
    for row in rows {
        event_line(&row.event, &mut line);
        let text = str::from_utf8(line.bytes()).unwrap_or("?");
        print!(rt; "  row of {}: {text}", row.pass)?;
    }
    Ok(())
}

/// Of those that wait each waits once, or a few once more: a wait may end for no reason.
fn show_waits(rt: &HostRuntime, waiting: &Waiting, notes: &Notes) -> io::Result<()> {
    let waits = notes.waits.load(Ordering::SeqCst);
    let once = waiting.others <= waits && waits < waiting.others.saturating_add(5);
    println!(rt; "  each that waits is rung but once: {once}")
}

fn show_replay(rt: &HostRuntime, plan: &Plan, rows: &[Past]) -> io::Result<()> {
    match replay(rt.alloc(), plan, rows) {
        Ok(count) => println!(rt; "  told the same to one: {count}"),
        Err(Memory) => Err(io::Error::from(AllocError)),
    }
}

fn show_work(
    rt: &HostRuntime,
    plan: &Plan,
    work: Work,
    rows: &[Past],
    notes: &Notes,
) -> io::Result<()> {
    match work {
        Work::Nothing => show_rows(rt, rows),
        Work::Serve(_) if plan.lasts => Ok(()),
        Work::Serve(_) => show_replay(rt, plan, rows),
        Work::Mix => show_replay(rt, plan, rows),
        Work::Meet => println!(rt; "  told busy: {}", notes.busy.load(Ordering::SeqCst)),
        Work::Queue(waiting) => show_waits(rt, &waiting, notes),
    }
}

/// Prints how many rows there were, those that were taken out too, how many requests came, how many are live, and
/// whether the threads' work took less than a wait that nobody ends; and then what the work is to show.
pub fn show_end(
    rt: &HostRuntime,
    plan: &Plan,
    work: Work,
    revision: &Revision,
    rows: &[Past],
    notes: &Notes,
    worked: io::Result<u64>,
) -> io::Result<()> {
    let all = notes
        .taken
        .load(Ordering::SeqCst)
        .saturating_add(rows.len() as u64);
    let ms = worked?;
    let soon = ms < MOST_MS;
    print!(rt; "  rows {all}, arrivals {}", revision.arrivals())?;
    // How many of a mix are live depends on who was first.
    match work {
        Work::Mix => println!(rt; ", soon {soon}")?,
        _ => println!(rt; ", live {}, soon {soon}", revision.live())?,
    }
    show_work(rt, plan, work, rows, notes)?;
    in_time(ms)
}
