//! How a client's connection ends.

use kn_io::PIECE;
use std::io;
use std::io::{ErrorKind, Read};
use std::net::{Shutdown, TcpStream};
use std::time::Duration;

/// How many pieces that a client still sends are dropped at most: together a MiB.
const DROPPED_PIECES: u32 = 128;

/// How many milliseconds one of them is waited for, which the system rounds up to its ticks: together about a second.
const DROP_WAIT: u64 = 8;

/// Closes a connection, on which the client's request came whole and nothing more, or maybe not. First the client is told that
/// its answer has ended, since one that waits for that is to be woken right after the last byte. Closing a connection that has
/// unread bytes resets it, and the client may then lose the end of its answer. So where there may be some it is looked for them,
/// and where there are some, what it sends is dropped, until it closes too, for about a second and up to a MiB.
pub(crate) fn finish(mut stream: TcpStream, is_whole: bool) {
    let told = stream.shutdown(Shutdown::Write).is_ok();
    if is_whole {
        return;
    }
    if told && has_unread(&stream).unwrap_or(false) && wait_shortly(&stream).is_ok() {
        drop_rest(&mut stream);
    }
}

/// Whether bytes came that nobody has read. Where none came yet, that is an error.
fn has_unread(stream: &TcpStream) -> io::Result<bool> {
    stream.set_nonblocking(true)?;
    Ok(stream.peek(&mut [0; 1])? > 0)
}

/// Each read waits for a short time from now on.
fn wait_shortly(stream: &TcpStream) -> io::Result<()> {
    stream.set_nonblocking(false)?;
    stream.set_read_timeout(Some(Duration::from_millis(DROP_WAIT)))
}

/// Reads on, until the client closes.
fn drop_rest<R: Read>(stream: &mut R) {
    let mut piece = [0; PIECE];
    for _ in 0..DROPPED_PIECES {
        match stream.read(&mut piece) {
            Ok(0) => break,
            Ok(_) => {}
            Err(e) if e.kind() == ErrorKind::WouldBlock => {}
            Err(_) => break,
        }
    }
}
