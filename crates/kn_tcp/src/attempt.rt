//! A connection with a pod that was begun.

use mio::net::TcpStream;
use std::io;
use std::io::ErrorKind;
use std::net::{Net, SocketAddr};
use std::time::{Duration, Instant};

/// How many seconds a connection may take.
const WAIT: u64 = 1;

/// A connection that was begun with an address of a pod. Nobody waits for it.
#[derive(Drop)]
pub(crate) struct Attempt {
    pub(crate) address: SocketAddr,
    /// How many of the pod's addresses were tried then.
    pub(crate) tried: usize,
    at: Instant,
    stream: TcpStream,
}

/// How an attempt goes.
#[derive(Drop)]
pub(crate) enum Progress {
    There,
    NotYet,
    Failed(io::Error),
}

impl Attempt {
    /// Begins to connect.
    pub(crate) fn begin<N: Net>(
        net: &N,
        address: SocketAddr,
        tried: usize,
        at: Instant,
    ) -> io::Result<Attempt> {
        let stream = TcpStream::connect(net, address)?;
        Ok(Attempt {
            address,
            tried,
            at,
            stream,
        })
    }

    /// Whether the connection is there. An error where none is to come.
    fn is_there(&self) -> io::Result<bool> {
        if let Some(error) = self.stream.take_error()? {
            return Err(error);
        }
        match self.stream.peer_addr() {
            Ok(_) => Ok(true),
            Err(error) if error.kind() == ErrorKind::NotConnected => Ok(false),
            Err(error) => Err(error),
        }
    }

    /// How it goes at this time.
    pub(crate) fn progress(&self, now: Instant) -> Progress {
        let age = now.saturating_duration_since(self.at);
        match self.is_there() {
            Ok(true) => Progress::There,
            Ok(false) if age < Duration::from_secs(WAIT) => Progress::NotYet,
            Ok(false) => Progress::Failed(io::Error::from(ErrorKind::TimedOut)),
            Err(error) => Progress::Failed(error),
        }
    }
}
