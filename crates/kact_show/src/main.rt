//! `kact_show`: reads a journal of timed events on standard input, and writes of its requests, its figures or its course.
#![tactic(auto)]

use kn_io::{ReaderSource, WriterSink, short_words};
use kn_show::{Status, show_run, tell};
use std::alloc::AllocError;
use std::process::ExitCode;

/// No command has so many words.
const WORDS: usize = 3;

fn main(rt: HostRuntime) -> ExitCode {
    let mut input = ReaderSource::new(rt.stdin());
    let mut out = WriterSink::new(rt.stdout());
    let mut err = WriterSink::new(rt.stderr());
    let status = match short_words(&rt, WORDS) {
        Ok(words) => show_run(rt.alloc(), &words, &mut input, &mut out, &mut err),
        Err(AllocError) => tell(Status::Memory, &mut err),
    };
    ExitCode::from(status.code())
}
