//! The socket that a front listens on.

use libc::net::{POLLIN, SHUT_RDWR, poll, shutdown};
use libc::types::pollfd;
use mio::net;
use std::io;
use std::io::ErrorKind;
use std::net::{Net, SocketAddr, TcpListener, TcpStream, ToSocketAddrs};
use std::os::fd::AsRawFd;

/// What came to a socket.
#[derive(Drop)]
pub(crate) enum Intake {
    /// This connection.
    Came(TcpStream),
    /// Nobody, or a client that has gone before it was taken in.
    Nobody,
    /// The system gives none, as where descriptors have run out, or the socket is closed.
    Failed,
}

/// A socket that listens, and its address.
#[derive(Drop)]
pub(crate) struct Socket {
    listener: TcpListener,
    address: SocketAddr,
}

/// A socket that listens on the first of the text's addresses that can be had, with the longest backlog that the system allows.
fn listen<N: Net>(net: &N, address: &str) -> io::Result<TcpListener> {
    let mut last = io::Error::from(ErrorKind::InvalidInput);
    for address in address.to_socket_addrs(net)? {
        match net::TcpListener::bind(net, address) {
            Ok(listener) => return Ok(TcpListener::from(listener)),
            Err(error) => last = error,
        }
    }
    Err(last)
}

impl Socket {
    /// Listens on an address, `HOST:PORT`, where port 0 is any free one.
    pub(crate) fn open<N: Net>(net: &N, address: &str) -> io::Result<Socket> {
        let listener = listen(net, address)?;
        // Who takes a connection of it waits until one comes.
        listener.set_nonblocking(false)?;
        let address = listener.local_addr()?;
        Ok(Socket { listener, address })
    }

    /// Where it listens.
    pub(crate) fn address(&self) -> SocketAddr {
        self.address
    }

    /// Waits for a connection.
    pub(crate) fn accept(&self) -> Intake {
        match self.listener.accept() {
            Ok((stream, _)) => Intake::Came(stream),
            Err(error) if error.kind() == ErrorKind::ConnectionAborted => Intake::Nobody,
            Err(_) => Intake::Failed,
        }
    }

    /// Whether a connection is there, so that `accept` doesn't wait where nobody else takes it.
    pub(crate) fn has_come(&self) -> bool {
        let mut looked = [pollfd {
            fd: self.listener.as_raw_fd(),
            events: POLLIN,
            revents: 0,
        }];
        poll(&mut looked, 0) > 0
    }

    /// Connects with itself and closes the connection at once, so that one who waits in `accept` comes back with it.
    pub(crate) fn knock<N: Net>(&self, net: &N) {
        // Where it fails, nobody comes back, and it is to be tried again.
        drop(net::TcpStream::connect(net, self.address));
    }

    /// Listens no more. Who waits in `accept` comes back, and who has come and wasn't taken is turned away.
    pub(crate) fn close(&self) {
        // It fails only where that was done.
        let _ = shutdown(self.listener.as_raw_fd(), SHUT_RDWR);
    }
}
