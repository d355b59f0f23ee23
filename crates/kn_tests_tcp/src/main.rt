//! Links, callers and fronts over loopback, std's streams, clocks, and the log of faults: what no script shows at `kactd` itself, since it needs a clock
//! that is set by hand, more addresses than a machine has, a call that fails, or a look in between. Each line of standard input is one of these, how it
//! is set up, and what is done then, one after another; below it stands what comes of each.
#![tactic(auto)]

mod answers;
mod callers;
mod clocks;
mod faults;
mod fronts;
mod inputs;
mod links;
mod shown;
mod sockets;
mod stage;
mod streams;
mod words;
mod world;

use sockets::Sockets;
use std::io;
use std::net::{Net, TcpListener, TcpStream};
use std::sync::Wait;
use std::thread::Threads;
use std::time::Clock;

/// Shows a line.
fn show<T: Net<Listener = TcpListener, Stream = TcpStream> + Threads + Wait + Clock + Sync>(
    rt: &HostRuntime,
    threads: &T,
    sockets: &Sockets,
    line: &str,
) -> io::Result<()> {
    println!(rt; "{line}")?;
    let (head, rest) = words::cut(line, '|');
    let (kind, setting) = words::cut(head, ' ');
    match kind {
        "link" => links::show(rt, threads, sockets, setting, rest),
        "callers" => callers::show(rt, setting, rest),
        "front" => fronts::show(rt, threads, sockets, setting, rest),
        "faults" => faults::show(rt, threads, sockets, rest),
        "input" => inputs::show(rt, rest),
        "reader" => streams::show_reader(rt, setting, rest),
        "writer" => streams::show_writer(rt, setting, rest),
        "clock" => clocks::show(rt, threads, sockets, setting, rest),
        _ => println!(rt; "  no such thing"),
    }
}

fn show_lines<T: Net<Listener = TcpListener, Stream = TcpStream> + Threads + Wait + Clock + Sync>(
    rt: &HostRuntime,
    threads: &T,
) -> io::Result<()> {
    let sockets = Sockets::open(rt)?;
    for line in rt.lines(rt.alloc()) {
        show(rt, threads, &sockets, line?.as_str())?;
    }
    Ok(())
}

fn main(rt: HostRuntime) -> io::Result<()> {
    show_lines(&rt, &rt)
}
