//! `kact`: replays a journal of timed events on standard input and writes its report to standard output.
#![tactic(auto)]

use kn_io::{ReaderSource, WriterSink, short_words};
use kn_replay::{Status, run, tell};
use std::alloc::AllocError;
use std::process::ExitCode;

/// No command has so many words.
const WORDS: usize = 4;

fn main(rt: HostRuntime) -> ExitCode {
    let mut input = ReaderSource::new(rt.stdin());
    let mut out = WriterSink::new(rt.stdout());
    let mut err = WriterSink::new(rt.stderr());
    let status = match short_words(&rt, WORDS) {
        Ok(words) => run(rt.alloc(), &words, &mut input, &mut out, &mut err),
        Err(AllocError) => tell(Status::Memory, &mut err),
    };
    ExitCode::from(status.code())
}
