//! The machine's sockets, with names and clocks that are set by hand.
ghost use Rattle.std.specs.Prelude.{◌≤◌, length};

use crate::sockets::Sockets;
use crate::words::cut;
use std::io;
use std::io::ErrorKind;
use std::net::{Ipv4Addr, Net, SocketAddr, TcpListener, TcpStream};
use std::sync::atomic::{AtomicU64, Ordering};
use std::sync::{OnceLock, Wait};
use std::time::{Clock, Duration};

/// The milliseconds of a clock that can't be read.
const UNREADABLE: u64 = u64::MAX;

/// The machine's sockets, where each name is the machine's own, maybe behind another address, which takes no call. It counts
/// how often a name was looked up, and keeps the first connection of a call, and how many seconds one might take.
#[derive(Drop)]
pub struct World<'a, T> {
    net: &'a T,
    sockets: &'a Sockets,
    before: Option<SocketAddr>,
    /// The milliseconds of the clock that nobody sets, and those of the time of day.
    steady: AtomicU64,
    day: AtomicU64,
    lookups: AtomicU64,
    waits: AtomicU64,
    first: OnceLock<TcpStream>,
}

/// How many whole seconds a time-out has, where there is one.
fn seconds_of(timeout: io::Result<Option<Duration>>) -> u64 {
    match timeout {
        Ok(Some(timeout)) => timeout.as_secs(),
        _ => 0,
    }
}

fn time_of(clock: &AtomicU64) -> io::Result<Duration> {
    match clock.load(Ordering::SeqCst) {
        UNREADABLE => Err(io::Error::from(ErrorKind::Unsupported)),
        ms => Ok(Duration::from_millis(ms)),
    }
}

impl<'a, T> World<'a, T> {
    /// At the first moment of both clocks, with this address before each name's own.
    pub fn new(net: &'a T, sockets: &'a Sockets, before: Option<SocketAddr>) -> World<'a, T> {
        World {
            net,
            sockets,
            before,
            steady: AtomicU64::new(0),
            day: AtomicU64::new(0),
            lookups: AtomicU64::new(0),
            waits: AtomicU64::new(0),
            first: OnceLock::new(),
        }
    }

    /// Sets the clock that nobody sets, and the time of day, by the milliseconds that two words spell. One that is no number can't be read.
    pub fn set(&self, times: &str) {
        let (steady, day) = cut(times, ' ');
        let steady = steady.parse().unwrap_or(UNREADABLE);
        let day = day.parse().unwrap_or(UNREADABLE);
        self.steady.store(steady, Ordering::SeqCst);
        self.day.store(day, Ordering::SeqCst);
    }

    pub fn lookups(&self) -> u64 {
        self.lookups.load(Ordering::SeqCst)
    }

    /// How many seconds the last connection of a call might take, and a read and a write of the first.
    pub fn waits(&self) -> [u64; 3] {
        let connects = self.waits.load(Ordering::SeqCst);
        match self.first.get() {
            Some(stream) => [
                connects,
                seconds_of(stream.read_timeout()),
                seconds_of(stream.write_timeout()),
            ],
            None => [connects, 0, 0],
        }
    }
}

/// Puts two addresses at the front of those that are found, and says how many there is room for.
fn put_two(found: &mut [SocketAddr], first: SocketAddr, second: SocketAddr) -> usize
    ensures { result ≤ length found.new }
{
    match found {
        [one, two, ..] => {
            *one = first;
            *two = second;
            2
        }
        _ => 0,
    }
}

impl<T: Net<Listener = TcpListener, Stream = TcpStream>> Net for World<'_, T> {
    type Stream = TcpStream;

    type Listener = TcpListener;

    fn bind(&self, addr: SocketAddr) -> io::Result<TcpListener> {
        self.net.bind(addr)
    }

    fn connect(&self, addr: SocketAddr) -> io::Result<TcpStream> {
        self.net.connect(addr)
    }

    /// A pod of ours has answered before the connection is handed out.
    fn connect_timeout(&self, addr: SocketAddr, timeout: Duration) -> io::Result<TcpStream> {
        self.waits.store(timeout.as_secs(), Ordering::SeqCst);
        if self.before == Some(addr) {
            return Err(io::Error::from(ErrorKind::TimedOut));
        }
        let stream = self.net.connect_timeout(addr, timeout)?;
        let _ = self.first.try_set(stream.try_clone()?);
        self.sockets.answer_at(addr.port(), stream.local_addr()?)?;
        Ok(stream)
    }

    fn lookup_host(&self, _host: &str, port: u16, found: &mut [SocketAddr]) -> io::Result<usize> {
        self.lookups.fetch_add(1, Ordering::SeqCst);
        match self.before {
            Some(before) => Ok(put_two(
                found,
                before,
                SocketAddr::from((Ipv4Addr::LOCALHOST, port)),
            )),
            None => self.net.lookup_host("127.0.0.1", port, found),
        }
    }
}

impl<T> Clock for World<'_, T> {
    fn monotonic(&self) -> io::Result<Duration> {
        time_of(&self.steady)
    }

    fn since_1970(&self) -> io::Result<Duration> {
        time_of(&self.day)
    }
}

impl<T: Wait> Wait for World<'_, T> {}
