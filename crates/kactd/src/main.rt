//! `kactd`: serves clients through the pods of one revision, or with `many` of several, and prints the journals of what it did. With
//! `stay` it goes on until standard input ends, and prints its journal meanwhile.
#![tactic(auto)]

use kn_io::{MachineClock, OpenGate, ReaderSource, WriterSink};
use kn_journal::Status;
use kn_many::kactd_many_run;
use kn_opener::{TcpOpener, TcpWideOpener};
use kn_serve::kactd_run;
use kn_stay_tcp::{Streams, kactd_stay};
use std::net::{Net, TcpListener, TcpStream};
use std::process::ExitCode;
use std::sync::Wait;
use std::thread::Threads;
use std::time::Clock;
use std::{env, thread};

/// The words after the program's name. Where they can't be had there are none, which is no command.
fn words(rt: &HostRuntime) -> Vec<String> {
    let mut words = Vec::new(rt.alloc());
    let Ok(mut given) = env::args(rt) else {
        return words;
    };
    let _ = given.next();
    for word in given {
        if words.push(word).is_err() {
            words.clear();
            break;
        }
    }
    words
}

/// Whether a thread can be made beside this one.
fn can_make_thread<T: Threads>(threads: &T) -> bool {
    match thread::spawn(threads, || ()) {
        Ok(made) => {
            made.join(threads);
            true
        }
        Err(_) => false,
    }
}

/// Serves one revision.
fn serve_one<T: Threads + Wait + Sync>(rt: &HostRuntime, threads: &T, words: &[String]) -> Status {
    let mut opener = TcpOpener::new(rt);
    let mut slots = Vec::new(rt.alloc());
    let mut keeper = None;
    kactd_run(
        threads,
        rt.alloc(),
        words,
        &mut opener,
        &mut ReaderSource::new(rt.stdin()),
        &mut slots,
        &mut keeper,
        &MachineClock::new(rt),
        &OpenGate,
        &mut WriterSink::new(rt.stdout()),
        &mut WriterSink::new(rt.stderr()),
    )
}

/// Serves several revisions.
fn serve_many<T: Threads + Wait + Sync>(rt: &HostRuntime, threads: &T, words: &[String]) -> Status {
    let mut opener = TcpWideOpener::new(rt);
    let mut slots = Vec::new(rt.alloc());
    let mut keepers = Vec::new(rt.alloc());
    kactd_many_run(
        threads,
        rt.alloc(),
        words,
        &mut opener,
        &mut ReaderSource::new(rt.stdin()),
        &mut slots,
        &mut keepers,
        &MachineClock::new(rt),
        &OpenGate,
        &mut WriterSink::new(rt.stdout()),
        &mut WriterSink::new(rt.stderr()),
    )
}

/// Serves one revision until standard input ends. The exit status.
fn stay<T: Net<Listener = TcpListener, Stream = TcpStream> + Clock + Threads + Wait + Sync>(
    rt: &HostRuntime,
    threads: &T,
    words: &[String],
) -> u8 {
    let streams = Streams {
        setup: rt.stdin(),
        stop: rt.stdin(),
        out: rt.stdout(),
        err: rt.stderr(),
    };
    kactd_stay(threads, rt.alloc(), words, streams)
}

/// Serves for so many rounds, one revision or several.
fn serve<T: Threads + Wait + Sync>(rt: &HostRuntime, threads: &T, words: &[String]) -> Status {
    if !can_make_thread(threads) {
        // Nobody is told where standard error takes nothing.
        let _ = eprintln!(rt; "kactd: no thread can be made, so everything is done in one");
    }
    match words.split_first() {
        Some((first, rest)) if first.as_str() == "many" => serve_many(rt, threads, rest),
        _ => serve_one(rt, threads, words),
    }
}

fn main(rt: HostRuntime) -> ExitCode {
    let words = words(&rt);
    let code = match words.split_first() {
        Some((first, rest)) if first.as_str() == "stay" => stay(&rt, &rt, rest),
        _ => serve(&rt, &rt, &words).code(),
    };
    ExitCode::from(code)
}
