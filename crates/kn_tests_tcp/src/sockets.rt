//! Sockets on loopback, and the words that stand for their addresses: `a` and `b` are pods, `A` and `B` are names of theirs, `left` is a port where
//! nobody listens, `full` one that takes no connection more, `no-text` a byte that is no text, and anything else is as it is spelled.

use kn_event::{Items, Text};
use std::alloc::{AllocError, Global};
use std::io;
use std::io::{ErrorKind, Write};
use std::net::{Ipv4Addr, SocketAddr, TcpListener, TcpStream};
use std::os::fd::AsRawFd;
use std::time::Duration;

#[derive(Drop)]
pub struct Sockets {
    a: TcpListener,
    b: TcpListener,
    pub full: TcpListener,
    // What waits in the full one.
    _waiting: TcpStream,
    a_port: u16,
    b_port: u16,
    full_port: u16,
    left_port: u16,
}

/// A listening socket, and its port.
pub fn listening(rt: &HostRuntime) -> io::Result<(TcpListener, u16)> {
    let listener = TcpListener::bind(rt, "127.0.0.1:0")?;
    let port = listener.local_addr()?.port();
    Ok((listener, port))
}

/// A client that waits ten seconds at most for each read and write.
pub fn client(rt: &HostRuntime, port: u16) -> io::Result<TcpStream> {
    let stream = TcpStream::connect(rt, ("127.0.0.1", port))?;
    stream.set_read_timeout(Some(Duration::from_secs(10)))?;
    stream.set_write_timeout(Some(Duration::from_secs(10)))?;
    Ok(stream)
}

impl Sockets {
    /// In the full one a connection waits, and what else comes is swallowed.
    pub fn open(rt: &HostRuntime) -> io::Result<Sockets> {
        let (_left, left_port) = listening(rt)?;
        let (a, a_port) = listening(rt)?;
        let (b, b_port) = listening(rt)?;
        let (full, full_port) = listening(rt)?;
        let _ = libc::net::listen(full.as_raw_fd(), 0);
        let waiting = client(rt, full_port)?;
        Ok(Sockets {
            a,
            b,
            full,
            _waiting: waiting,
            a_port,
            b_port,
            full_port,
            left_port,
        })
    }

    fn port_of(&self, word: &str) -> Option<u16> {
        match word {
            "a" => Some(self.a_port),
            "A" => Some(self.a_port),
            "b" => Some(self.b_port),
            "B" => Some(self.b_port),
            "full" => Some(self.full_port),
            "left" => Some(self.left_port),
            _ => None,
        }
    }

    /// The address that a word stands for.
    pub fn address_of(&self, word: &str) -> Option<SocketAddr> {
        Some(SocketAddr::from((Ipv4Addr::LOCALHOST, self.port_of(word)?)))
    }

    /// The pod that listens at this port, if there is one, answers who has come from this address.
    pub fn answer_at(&self, port: u16, client: SocketAddr) -> io::Result<()> {
        if port == self.a_port {
            answer(&self.a, client, b'a')
        } else if port == self.b_port {
            answer(&self.b, client, b'b')
        } else {
            Ok(())
        }
    }

    /// The text of the address that a word stands for.
    fn text_of(&self, alloc: Global, word: &str) -> Result<Vec<u8>, AllocError> {
        let host = match word {
            "A" => "pod.example",
            "B" => "pod.example",
            "no-text" => return Vec::from_slice(alloc, &[0xff]),
            _ => "127.0.0.1",
        };
        match self.port_of(word) {
            Some(port) => Ok(format!(in alloc; "{host}:{port}")?.into_bytes()),
            None => Vec::from_slice(alloc, word.as_bytes()),
        }
    }

    fn add_addresses(
        &self,
        alloc: Global,
        words: &str,
        texts: &mut Vec<Text>,
    ) -> Result<(), AllocError> {
        for word in words.split(' ') {
            let (count, word) = word.split_once('*').unwrap_or(("1", word));
            for _ in 0..count.parse().unwrap_or(0u64) {
                texts.push(Text::new(self.text_of(alloc, word)?))?;
            }
        }
        Ok(())
    }

    /// The addresses that these words stand for: `3*a` is `a` three times.
    pub fn addresses_of(&self, alloc: Global, words: &str) -> Result<Items<Text>, AllocError> {
        let mut texts = Vec::new(alloc);
        match self.add_addresses(alloc, words, &mut texts) {
            Ok(()) => Ok(Items::new(texts)),
            Err(AllocError) => {
                drop(texts);
                Err(AllocError)
            }
        }
    }
}

/// Answers by this name who has come from this address, before it has asked, and closes. Who came before it, as probes do, is passed over.
fn answer(listener: &TcpListener, client: SocketAddr, name: u8) -> io::Result<()> {
    let mut reply = *b"HTTP/1.1 200 X\r\nContent-Length: 0\r\n\r\n";
    reply[13] = name;
    for _ in 0..100 {
        let (mut stream, from) = listener.accept()?;
        if from == client {
            return stream.write_all(&reply);
        }
    }
    Err(io::Error::from(ErrorKind::TimedOut))
}
