//! The end of an input as what tells a server to stop.

use kn_door::Stop;
use mio::unix::SourceFd;
use mio::{Events, Interest, Poll, Token};
use std::alloc::Global;
use std::io;
use std::io::{ErrorKind, Read};
use std::net::Net;
use std::os::fd::AsRawFd;
use std::time::Duration;

/// The one token.
const INPUT: Token = Token(0);

/// How many pieces are read in one call at most, and how many bytes each has.
const PIECES: u32 = 64;

const PIECE: usize = 4096;

/// An input, such as standard input, at the end of which a server stops. What comes before its end is read and dropped. A file,
/// and what else can't be watched, is at its end at once.
#[derive(Drop)]
pub struct InputStop<S> {
    input: S,
    poll: Poll,
    events: Events,
    over: bool,
}

/// Whether a later read may go well.
fn is_passing(error: &io::Error) -> bool {
    matches!(error.kind(), ErrorKind::Interrupted | ErrorKind::WouldBlock)
}

impl<S: Read + AsRawFd + Drop> InputStop<S> {
    /// Watches this input, which keeps nothing back of what it reads, and which nobody else reads from now on.
    pub fn new<N: Net>(net: &N, alloc: Global, input: S) -> io::Result<InputStop<S>> {
        let poll = Poll::new(net)?;
        let fd = input.as_raw_fd();
        let watched = poll
            .registry()
            .register(&mut SourceFd(&fd), INPUT, Interest::READABLE);
        Ok(InputStop {
            input,
            poll,
            events: Events::with_capacity(alloc, 1)?,
            over: watched.is_err(),
        })
    }

    /// Whether bytes have come, or the end, so that a read doesn't wait.
    fn is_ready(&mut self) -> bool {
        match self.poll.poll(&mut self.events, Some(Duration::ZERO)) {
            Ok(()) => !self.events.is_empty(),
            Err(_) => false,
        }
    }

    /// Reads once, and says whether there may be more. What is there by then is reported again.
    fn read_on(&mut self) -> bool {
        match self.input.read(&mut [0; PIECE]) {
            Ok(0) => return false,
            Ok(_) => {}
            Err(error) if is_passing(&error) => {}
            Err(_) => return false,
        }
        let fd = self.input.as_raw_fd();
        let registry = self.poll.registry();
        registry
            .reregister(&mut SourceFd(&fd), INPUT, Interest::READABLE)
            .is_ok()
    }
}

impl<S: Read + AsRawFd + Drop> Stop for InputStop<S> {
    fn is_over(&mut self) -> bool {
        for _ in 0..PIECES {
            if self.over || !self.is_ready() {
                break;
            }
            self.over = !self.read_on();
        }
        self.over
    }
}
