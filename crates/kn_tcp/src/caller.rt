//! Clients that come to a listening socket.
ghost use Rattle.std.specs.Prelude.{◌≡◌, None};

mod handed;

use crate::closing::finish;
use crate::course::{Course, leave};
use crate::line::Line;
use handed::Origin;
use kn_io::{Caller, Failed, Faulty, PIECE, Sink, Source, fault, read_piece};
use kn_reply::put_plain;
use std::io;
use std::io::{ErrorKind, Write};
use std::net::{TcpListener, TcpStream};
use std::time::Duration;

/// How many seconds one read or write of a client's connection waits.
const CLIENT_WAIT: u64 = 60;

/// How often a connection is accepted anew where the client before has gone.
const TRIES: u32 = 10;

/// A caller whose connections come to a listening socket, which other callers may share. A connection is closed before
/// the next is taken. Each error is a fault, and so are a write of 0 bytes of a piece that isn't empty, a read or write
/// before the first connection, and a read for which the count of the bytes given has no room. A client that waits for leave to
/// send its body (`Expect: 100-continue`) gets it where the body is read. One of HTTP/1.0 is sent an answer as `put_plain` says,
/// where the first write after its request is the whole answer.
#[derive(Drop)]
pub struct TcpCaller {
    origin: Origin,
    wait: Duration,
    line: Line,
    course: Course,
    // Whether something was written to the client.
    has_written: bool,
    given: u128,
}

impl TcpCaller {
    /// A caller that takes its connections here, without faults so far. Each read and each write of a connection waits for a
    /// minute at most.
    pub fn new(listener: TcpListener) -> TcpCaller
        ensures faults { ⟦<TcpCaller as Faulty>⟧.faults result ≡ 0 }
        ensures given { ⟦<TcpCaller as Source>⟧.given result ≡ 0 }
    {
        TcpCaller::waiting(listener, Duration::from_secs(CLIENT_WAIT))
    }

    /// One whose reads and writes wait so long at most. Where that is no time at all, no connection is taken.
    pub fn waiting(listener: TcpListener, wait: Duration) -> TcpCaller
        ensures faults { ⟦<TcpCaller as Faulty>⟧.faults result ≡ 0 }
        ensures given { ⟦<TcpCaller as Source>⟧.given result ≡ 0 }
    {
        TcpCaller::of(Origin::Socket(listener), wait)
    }

    fn of(origin: Origin, wait: Duration) -> TcpCaller
        ensures faults { ⟦<TcpCaller as Faulty>⟧.faults result ≡ 0 }
        ensures given { ⟦<TcpCaller as Source>⟧.given result ≡ 0 }
    {
        TcpCaller {
            origin,
            wait,
            line: Line::new(),
            course: Course::new(),
            has_written: false,
            given: 0,
        }
    }
}

/// The next connection. A client that went away before its turn is passed over, up to ten in a row.
fn accept(listener: &TcpListener) -> io::Result<TcpStream> {
    let mut last = io::Error::from(ErrorKind::ConnectionAborted);
    for _ in 0..TRIES {
        match listener.accept() {
            Ok((stream, _)) => return Ok(stream),
            Err(e) => last = e,
        }
        if last.kind() != ErrorKind::ConnectionAborted {
            break;
        }
    }
    Err(last)
}

/// The next connection, whose reads wait so long at most.
fn accept_in_time(listener: &TcpListener, wait: Duration) -> io::Result<TcpStream> {
    let stream = accept(listener)?;
    stream.set_read_timeout(Some(wait))?;
    Ok(stream)
}

impl Faulty for TcpCaller {
    ghost faults = { λ c. c.line.faults };

    fn faults(&self) -> u64 {
        self.line.faults
    }
}

impl Source for TcpCaller {
    ghost left = { λ _. None };

    ghost apart = { λ _. None };

    ghost given = { λ c. c.given };

    fn read(&mut self, buf: &mut [u8]) -> Result<usize, Failed> {
        if self.given > u128::MAX - PIECE as u128 {
            return Err(fault(&mut self.line.faults));
        }
        let Some(stream) = &mut self.line.stream else {
            return Err(fault(&mut self.line.faults));
        };
        if self.course.take_due() && stream.write_all(leave()).is_err() {
            return Err(fault(&mut self.line.faults));
        }
        match read_piece(stream, &mut self.line.buffer, buf) {
            Ok(n) => {
                let is_full = n == buf.len().min(PIECE);
                self.course.hear(&self.line.buffer[..n], is_full);
                self.given += n as u128;
                Ok(n)
            }
            Err(_) => Err(fault(&mut self.line.faults)),
        }
    }
}

impl Sink for TcpCaller {
    ghost held = { λ _. None };

    ghost kept = { λ _. None };

    fn write(&mut self, bytes: &[u8]) -> Result<usize, Failed> {
        let is_first = !self.has_written;
        self.has_written = true;
        if is_first && self.course.is_old() {
            put_plain(&mut self.line, bytes)?;
            self.line.send_gathered()?;
            return Ok(bytes.len());
        }
        self.line.send(bytes)
    }
}

impl Caller for TcpCaller {
    ghost use Rattle.std.specs.Prelude.{[]};

    ghost paired = { λ _. tt };

    ghost together = { λ _ i. None };

    ghost heard = { λ _. tt };

    fn meet(&mut self) -> Result<(), Failed> {
        // The client before sees the end of its answer, also while nobody else comes.
        self.part();
        match self.origin.next(self.wait) {
            Ok(stream) => {
                self.line.begin(stream);
                self.course = Course::new();
                self.has_written = false;
                Ok(())
            }
            Err(_) => Err(fault(&mut self.line.faults)),
        }
    }

    fn part(&mut self) {
        if let Some(stream) = self.line.stream.take() {
            finish(stream, self.course.is_whole());
        }
    }
}
