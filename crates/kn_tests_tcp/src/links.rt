//! Links to pods: `link BEFORE|ADDRESSES|ACTS`, where before each name's own address stands another, or none. An act is a time and what is
//! done then: `0 probe 1` and `0 call 1`, of the pod at this place; `0 waits`, how many seconds a connection, a read and a write might take;
//! `0 take`, the full pod takes the connection that waits; `0 until 1`, probes until the pod at this place is reached, for ten seconds at most.
//! Behind each act's answer stand the faults and the lookups of names so far.

use crate::answers::Answer;
use crate::sockets::Sockets;
use crate::words::{cut, number};
use crate::world::World;
use kn_event::Memory;
use kn_io::{Failed, Faulty, PodLink};
use kn_tcp::TcpLink;
use std::alloc::Global;
use std::io::ErrorKind;
use std::net::{Net, TcpListener, TcpStream};
use std::sync::Wait;
use std::thread::Threads;
use std::time::{Clock, Duration};
use std::{io, thread};

/// A link whose pods are those of a world.
type Link<'w, 'a, T> = TcpLink<&'w World<'a, T>>;

fn call<L: PodLink>(alloc: Global, link: &mut L, place: u64) -> Answer {
    match link.call(alloc, place, b"ask") {
        Ok(answer) => Answer::text(answer.bytes()),
        Err(_) => Answer::Failed,
    }
}

fn probe<L: PodLink>(link: &mut L, place: u64) -> Answer {
    match link.probe(place) {
        Ok(is_there) => Answer::Is(is_there),
        Err(Failed) => Answer::Failed,
    }
}

/// Probes a pod until it is reached.
fn reach<L: PodLink>(rt: &HostRuntime, link: &mut L, place: u64) -> Answer {
    for _ in 0..100 {
        if let Ok(true) = link.probe(place) {
            return Answer::Is(true);
        }
        thread::sleep(rt, Duration::from_millis(100));
    }
    Answer::Is(false)
}

fn act<T: Net<Listener = TcpListener, Stream = TcpStream> + Threads + Wait + Clock + Sync>(
    rt: &HostRuntime,
    sockets: &Sockets,
    world: &World<'_, T>,
    link: &mut Link<'_, '_, T>,
    act: &str,
) -> Answer {
    let (time, rest) = cut(act, ' ');
    let (what, place) = cut(rest, ' ');
    world.set(time);
    match what {
        "probe" => probe(link, number(place)),
        "call" => call(rt.alloc(), link, number(place)),
        "until" => reach(rt, link, number(place)),
        "take" => Answer::of(sockets.full.accept().is_ok()),
        _ => Answer::Counts(world.waits()),
    }
}

fn show_acts<T: Net<Listener = TcpListener, Stream = TcpStream> + Threads + Wait + Clock + Sync>(
    rt: &HostRuntime,
    sockets: &Sockets,
    world: &World<'_, T>,
    link: &mut Link<'_, '_, T>,
    acts: &str,
) -> io::Result<()> {
    for words in acts.split(", ") {
        let answer = act(rt, sockets, world, link, words);
        println!(rt;
            "  {words}: {answer}, faults {}, lookups {}",
            link.faults(),
            world.lookups()
        )?;
    }
    Ok(())
}

/// Shows what is done with a new link.
pub fn show<'a, T: Net<Listener = TcpListener, Stream = TcpStream> + Threads + Wait + Clock + Sync>(
    rt: &HostRuntime,
    threads: &'a T,
    sockets: &'a Sockets,
    before: &str,
    rest: &str,
) -> io::Result<()> {
    let (addresses, acts) = cut(rest, '|');
    let world = World::new(threads, sockets, sockets.address_of(before));
    let addresses = sockets.addresses_of(rt.alloc(), addresses)?;
    match TcpLink::new(rt.alloc(), &world, addresses.items()) {
        Ok(mut link) => show_acts(rt, sockets, &world, &mut link, acts),
        Err(Memory) => Err(io::Error::from(ErrorKind::OutOfMemory)),
    }
}
