//! The log of faults, which writes to standard output here, by a clock that is set by hand: `faults|ACTS`. An act is `pod 3` or `client 3`, so many faults;
//! `clock 1000` is set, `clock -`, it can't be read; `goes on`, a request ended well. At last the log ends.

use crate::sockets::Sockets;
use crate::words::{cut, number};
use crate::world::World;
use kn_faults::{FaultLog, Party};
use kn_io::{Sink, WriterSink};
use std::io;
use std::net::{Net, TcpListener, TcpStream};
use std::sync::Wait;
use std::thread::Threads;
use std::time::Clock;

/// So many faults of a party.
fn tell<T: Wait, O: Sink + Drop, K: Clock + Drop>(
    threads: &T,
    log: &FaultLog<O, K>,
    party: Party,
    count: u64,
) {
    for _ in 0..count {
        log.tell(threads, party);
    }
}

fn act<
    T: Net<Listener = TcpListener, Stream = TcpStream> + Threads + Wait + Clock + Sync,
    O: Sink + Drop,
>(threads: &T, world: &World<'_, T>, log: &FaultLog<O, &World<'_, T>>, act: &str) {
    let (what, rest) = cut(act, ' ');
    match what {
        "pod" => tell(threads, log, Party::Pod, number(rest)),
        "client" => tell(threads, log, Party::Client, number(rest)),
        "clock" => world.set(rest),
        _ => log.go_on(threads),
    }
}

/// Shows what a new log tells.
pub fn show<T: Net<Listener = TcpListener, Stream = TcpStream> + Threads + Wait + Clock + Sync>(
    rt: &HostRuntime,
    threads: &T,
    sockets: &Sockets,
    acts: &str,
) -> io::Result<()> {
    let world = World::new(threads, sockets, None);
    let log = FaultLog::new(WriterSink::new(rt.stdout()), &world);
    for words in acts.split(", ") {
        println!(rt; "  {words}")?;
        act(threads, &world, &log, words);
    }
    println!(rt; "  the end")?;
    let _ = log.end();
    Ok(())
}
