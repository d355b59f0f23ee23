//! What has come of a connection so far.

use libc::net::{POLLIN, POLLRDHUP, poll};
use libc::types::pollfd;
use std::net::TcpStream;
use std::os::fd::AsRawFd;

/// What a connection is found to be.
#[derive(Clone, Copy)]
pub enum Found {
    /// Bytes have come that nobody has read.
    Begun,
    /// Nothing has come that wasn't read.
    Silent,
    /// Its other side sends no more, or it is broken, and nothing is left to be read.
    Ended,
}

/// Looks at the connection, and leaves what came. It waits until something has come, for so many milliseconds at most.
pub fn look(stream: &TcpStream, wait: u16) -> Found {
    let mut looked = [pollfd {
        fd: stream.as_raw_fd(),
        events: POLLIN | POLLRDHUP,
        revents: 0,
    }];
    if poll(&mut looked, i32::from(wait)) <= 0 {
        return Found::Silent;
    }
    if looked[0].revents == POLLIN {
        return Found::Begun;
    }
    // Its end has come, maybe behind bytes, so this doesn't wait.
    match stream.peek(&mut [0; 1]) {
        Ok(0) | Err(_) => Found::Ended,
        Ok(_) => Found::Begun,
    }
}
