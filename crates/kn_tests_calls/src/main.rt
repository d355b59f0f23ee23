//! Calls of what decides, of what holds requests, and of a revision, by lines; `stdout` has what must come of them.
//!
//! Standard input is blocks, each of which ends with a line `end`. The first line of a block names its subject. Each
//! line below it that begins with a space is an act, and is printed with what comes of it; one that begins with `#`
//! says what is shown, and isn't printed. What is done with a subject, and with what words and numbers, its own file
//! says:
//!
//! - `windows`: `panic`, `delay SECONDS`, `window SECONDS`;
//! - `policies`: `policy cc CC seed SEED`; `pods`: `pods`; `books`: `book ADDRESSES`; `ahead`: `ahead`;
//! - `sequences`: `seats`, `stats` and `table`, which have no acts.
//!
//! Behind the acts of these stands a journal, up to the end of the block, which gives the setup:
//!
//! - `parts`: `parts`; `decisions`: `zero SINCE`, `decisions`; `journals`: `back`, which has no acts;
//! - `revisions`: `many`, where the journal's events come before the acts.
//!
//! A block that is a journal alone, maybe behind lines with `#`, is replayed, as `revisions` says.
#![tactic(auto)]

mod ahead;
mod books;
mod decisions;
mod history;
mod journals;
mod parts;
mod pods;
mod policies;
mod revisions;
mod sequences;
mod subject;
mod windows;
mod words;

use std::alloc::Global;
use std::io;
use words::{add, word};

/// Adds what a block that has no setup comes to.
fn answer_plain(alloc: Global, block: &str, out: &mut String) {
    match word(block, 0) {
        "panic" => windows::panic(block, out),
        "delay" => windows::delay(alloc, block, out),
        "window" => windows::window(alloc, block, out),
        "policy" => policies::policy(alloc, block, out),
        "pods" => pods::pods(alloc, block, out),
        "book" => books::book(alloc, block, out),
        "ahead" => ahead::ahead(block, out),
        "seats" => sequences::seats(alloc, out),
        "stats" => sequences::stats(alloc, out),
        "table" => sequences::table(alloc, out),
        _ => add(out, "no such subject\n"),
    }
}

fn answer(alloc: Global, block: &str, out: &mut String) {
    match block.split_once("kact journal ") {
        Some((acts, journal)) => journals::answer(alloc, acts, journal, out),
        None => answer_plain(alloc, block, out),
    }
}

/// Prints what a block comes to.
fn show(rt: &HostRuntime, block: &str) -> io::Result<()> {
    let mut out = String::new(rt.alloc());
    answer(rt.alloc(), block, &mut out);
    print!(rt; "{out}")
}

fn show_all(rt: &HostRuntime, blocks: &str) -> io::Result<()> {
    for block in blocks.split_inclusive("\nend\n") {
        show(rt, block)?;
    }
    Ok(())
}

fn main(rt: HostRuntime) -> io::Result<()> {
    let blocks = io::read_to_string(rt.alloc(), rt.reader())?;
    show_all(&rt, blocks.as_str())
}
