//! A session over one revision, by `serve_run`.
ghost use Rattle.std.specs.Prelude.{◌≡◌, [], IfOk, None};

use crate::hands::Hands;
use crate::said::{show_answers, show_bytes, show_calls};
use crate::slots::{MemSlot, Visitor, link_of, slots_of};
use kn_event::Memory;
use kn_io::{MemLink, MemSink, MemSource};
use kn_journal::Status;
use kn_serve::{MemOpener, Opener, plan_of, refused, serve_run, unopened};
use std::alloc::{AllocError, Global};
use std::io;
use std::sync::Wait;
use std::sync::atomic::Ordering;
use std::thread::Threads;

/// One pod that starts, one request at a time, 300 seconds to wait.
const SETUP: &[u8] = b"kact journal 1\nfixed limit=1 depth=10 max=1 pods=1 timeout=300 seed=0\n";

/// What a session reads, writes and tells.
#[derive(Drop)]
struct Streams {
    input: MemSource,
    out: MemSink,
    err: MemSink,
}

impl Streams {
    /// These bytes, and nothing written or told.
    fn new(alloc: Global, input: Vec<u8>) -> Result<Streams, Memory> {
        let out = MemSink::new(alloc, 10_000, Vec::new(alloc))?;
        match MemSink::new(alloc, 1_000, Vec::new(alloc)) {
            Ok(err) => Ok(Streams {
                input: MemSource::new(input, Vec::new(alloc)),
                out,
                err,
            }),
            Err(Memory) => {
                drop(out);
                Err(Memory)
            }
        }
    }
}

/// The words of a line.
fn words_of(alloc: Global, line: &str) -> Result<Vec<String>, AllocError> {
    let mut words = Vec::new(alloc);
    for word in line.split_ascii_whitespace() {
        words.push(String::from_str(alloc, word)?)?;
    }
    Ok(words)
}

/// What a session is run over: its words, what opens its slots and its keeper, where these come to, and what it reads
/// and writes.
#[derive(Drop)]
struct Command {
    words: Vec<String>,
    opener: MemOpener<Visitor, MemLink>,
    slots: Vec<MemSlot>,
    keeper: Option<MemLink>,
    streams: Streams,
}

/// What hands out a slot for each of these words, and a keeper.
fn opener_of(alloc: Global, words: &str) -> Result<MemOpener<Visitor, MemLink>, Memory> {
    let slots = slots_of(alloc, words)?;
    match link_of(alloc, "") {
        Ok(keeper) => Ok(MemOpener::new(slots, keeper, false)),
        Err(Memory) => {
            drop(slots);
            Err(Memory)
        }
    }
}

fn streams_of(alloc: Global) -> Result<Streams, AllocError> {
    match Streams::new(alloc, Vec::from_slice(alloc, SETUP)?) {
        Ok(streams) => Ok(streams),
        Err(Memory) => Err(AllocError),
    }
}

/// Of words on the slots, and those of the command.
fn command_of(alloc: Global, slots: &str, words: &str) -> Result<Command, AllocError>
    ensures slots { IfOk result (λ c. c.slots.items ≡ []) }
    ensures keeper { IfOk result (λ c. c.keeper ≡ None) }
{
    let words = words_of(alloc, words)?;
    let streams = streams_of(alloc)?;
    match opener_of(alloc, slots) {
        Ok(opener) => Ok(Command {
            words,
            opener,
            slots: Vec::new(alloc),
            keeper: None,
            streams,
        }),
        Err(Memory) => Err(AllocError),
    }
}

/// Opens the slots, and serves them by `serve_run`.
fn serve<R: Threads + Wait + Sync>(
    rt: &R,
    alloc: Global,
    command: &mut Command,
    hands: &Hands,
) -> Status
    requires slots { command.old.slots.items ≡ [] }
    requires keeper { command.old.keeper ≡ None }
{
    let Command {
        words,
        opener,
        slots,
        keeper,
        streams,
    } = command;
    let Streams { input, out, err } = streams;
    let plan = match plan_of(alloc, words) {
        Ok(plan) => plan,
        Err(error) => return refused(error),
    };
    match opener.open(alloc, &plan, slots, keeper) {
        Ok(()) => {}
        Err(error) => return unopened(error),
    }
    match keeper {
        Some(keeper) => serve_run(
            rt, alloc, &plan, input, slots, keeper, hands, hands, out, err,
        ),
        None => Status::Memory,
    }
}

/// Prints the status, how often the gate was passed, and what callers, pods and the terminal were told.
fn show_command(
    rt: &HostRuntime,
    status: &Status,
    command: &Command,
    hands: &Hands,
) -> io::Result<()> {
    let [even, odd] = hands.passes();
    let (code, late) = (status.code(), hands.late.load(Ordering::SeqCst));
    let slots = command.slots.len();
    println!(rt; "  status {code}, slots {slots}, passed {even} {odd}, late {late}")?;
    for slot in &command.slots {
        show_answers(rt, &slot.caller)?;
        show_calls(rt, &slot.link)?;
    }
    show_bytes(rt, "  told", command.streams.err.held())
}

/// Shows a line: words on the slots, the command's words, and words on the clock and the gate.
pub fn show<R: Threads + Wait + Sync>(rt: &HostRuntime, threads: &R, line: &str) -> io::Result<()> {
    let (slots, rest) = line.split_once('|').unwrap_or((line, ""));
    let (words, setting) = rest.split_once('|').unwrap_or((rest, ""));
    let hands = Hands::of(rt.alloc(), setting)?;
    let mut command = command_of(rt.alloc(), slots, words)?;
    let status = serve(threads, rt.alloc(), &mut command, &hands);
    let shown = show_command(rt, &status, &command, &hands);
    drop(command);
    shown
}
