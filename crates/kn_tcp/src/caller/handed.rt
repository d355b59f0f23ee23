//! Callers that are handed each of their connections.
ghost use Rattle.std.specs.Prelude.{◌≡◌, ◌≤◌, true, false};
ghost use Rattle.kn_io.specs.Causes.{HasCause, Rose};

use super::{CLIENT_WAIT, TcpCaller, accept_in_time};
use crate::looks::{Found, look};
use kn_io::{Failed, Faulty, Source, fault};
use std::io;
use std::io::{ErrorKind, Write};
use std::net::{TcpListener, TcpStream};
use std::time::Duration;

/// Where a caller's connections come from.
#[derive(Drop)]
pub(super) enum Origin {
    /// They come to this socket.
    Socket(TcpListener),
    /// Each is handed over before it is met.
    Hand(Option<TcpStream>),
}

impl Origin {
    /// The next connection. Its writes wait so long at most, and its reads too, unless it was handed over.
    pub(super) fn next(&mut self, wait: Duration) -> io::Result<TcpStream> {
        let stream = match self {
            Origin::Socket(listener) => accept_in_time(listener, wait)?,
            Origin::Hand(handed) => match handed.take() {
                Some(stream) => stream,
                None => return Err(io::Error::from(ErrorKind::NotConnected)),
            },
        };
        stream.set_write_timeout(Some(wait))?;
        Ok(stream)
    }
}

impl TcpCaller {
    /// A caller without a socket, which meets what it is handed, without faults so far. To meet nobody is a fault. Each write of
    /// a connection waits for a minute at most. A read waits until something comes, unless `wait_at_most` says how long: whoever
    /// hands a connection over says it before a read that may find nothing.
    pub fn handed() -> TcpCaller
        ensures faults { ⟦<TcpCaller as Faulty>⟧.faults result ≡ 0 }
        ensures given { ⟦<TcpCaller as Source>⟧.given result ≡ 0 }
    {
        TcpCaller::of(Origin::Hand(None), Duration::from_secs(CLIENT_WAIT))
    }

    /// Hands it the connection that it meets next, whose calls wait, as those of `std` do at first. One that was handed before and
    /// isn't met yet is closed, and a socket of its own too.
    pub fn hand(&mut self, stream: TcpStream)
        ensures faults { ⟦<TcpCaller as Faulty>⟧.faults self.new ≡ ⟦<TcpCaller as Faulty>⟧.faults self.old }
        ensures given { ⟦<TcpCaller as Source>⟧.given self.new ≡ ⟦<TcpCaller as Source>⟧.given self.old }
    {
        self.origin = Origin::Hand(Some(stream));
    }

    /// Each read of the connection that was met last waits so long at most from now on. No time at all is a fault.
    pub fn wait_at_most(&mut self, wait: Duration) -> Result<(), Failed>
        ensures cause { HasCause (⟦<TcpCaller as Faulty>⟧.faults self.old) (⟦<TcpCaller as Faulty>⟧.faults self.new) result }
        ensures given { ⟦<TcpCaller as Source>⟧.given self.new ≡ ⟦<TcpCaller as Source>⟧.given self.old }
    {
        match &self.line.stream {
            Some(stream) if stream.set_read_timeout(Some(wait)).is_ok() => Ok(()),
            Some(_) | None => Err(fault(&mut self.line.faults)),
        }
    }

    /// Whether the client that was met last has closed its side of the connection, or the connection is broken, and nothing that it
    /// sent is left to be read. It doesn't wait. Where it has, that is a fault of the client's, at each call.
    pub fn has_ended(&mut self) -> bool
        ensures rose { result ≡ true → Rose (⟦<TcpCaller as Faulty>⟧.faults self.old) (⟦<TcpCaller as Faulty>⟧.faults self.new) }
        ensures same { result ≡ false → ⟦<TcpCaller as Faulty>⟧.faults self.new ≡ ⟦<TcpCaller as Faulty>⟧.faults self.old }
        ensures never_falls { ⟦<TcpCaller as Faulty>⟧.faults self.old ≤ ⟦<TcpCaller as Faulty>⟧.faults self.new }
        ensures given { ⟦<TcpCaller as Source>⟧.given self.new ≡ ⟦<TcpCaller as Source>⟧.given self.old }
    {
        let ended = match &self.line.stream {
            Some(stream) => look(stream, 0) == Found::Ended,
            None => false,
        };
        if ended {
            fault(&mut self.line.faults);
        }
        ended
    }

    /// Sends the client these bytes in place of an answer, as far as it takes them. It is a fault of the client's.
    pub fn dismiss(&mut self, bytes: &[u8]) -> Failed
        ensures rose { Rose (⟦<TcpCaller as Faulty>⟧.faults self.old) (⟦<TcpCaller as Faulty>⟧.faults self.new) }
        ensures never_falls { ⟦<TcpCaller as Faulty>⟧.faults self.old ≤ ⟦<TcpCaller as Faulty>⟧.faults self.new }
        ensures given { ⟦<TcpCaller as Source>⟧.given self.new ≡ ⟦<TcpCaller as Source>⟧.given self.old }
    {
        if let Some(stream) = &mut self.line.stream {
            let _ = stream.write_all(bytes);
        }
        fault(&mut self.line.faults)
    }
}
