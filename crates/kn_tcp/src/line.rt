//! The connection with a client.
ghost use Rattle.std.specs.Prelude.{◌≡◌, ◌≤◌, ◌<◌, length, IfOk, OnOk, None};
ghost use Rattle.kn_io.specs.Causes.{HasCause};

use kn_io::{Failed, Faulty, PIECE, Sink, fault};
use std::io::Write;
use std::net::TcpStream;

/// The connection with the client that was met last, and the count of its faults and of those before. As a sink it gathers small
/// pieces, so that few calls of the system send them.
#[derive(Drop)]
pub(crate) struct Line {
    pub(crate) stream: Option<TcpStream>,
    /// What was read last, or is gathered.
    pub(crate) buffer: [u8; PIECE],
    gathered: usize,
    pub(crate) faults: u64,
}

impl Line {
    /// No client so far.
    pub(crate) fn new() -> Line
        ensures { result.faults ≡ 0 }
    {
        Line {
            stream: None,
            buffer: [0; PIECE],
            gathered: 0,
            faults: 0,
        }
    }

    /// Goes on with this client. What was gathered for another one is dropped.
    pub(crate) fn begin(&mut self, stream: TcpStream)
        ensures { self.new.faults ≡ self.old.faults }
    {
        self.stream = Some(stream);
        self.gathered = 0;
    }

    /// Sends the first of these bytes at once, and says how many.
    pub(crate) fn send(&mut self, bytes: &[u8]) -> Result<usize, Failed>
        ensures bound { IfOk result (λ n. n ≤ length bytes.now) }
        ensures some { IfOk result (λ n. 0 < length bytes.now → 0 < n) }
        ensures cause { HasCause self.old.faults self.new.faults result }
    {
        let Some(stream) = &mut self.stream else {
            return Err(fault(&mut self.faults));
        };
        match stream.write(bytes) {
            Ok(n) if n > 0 || bytes.is_empty() => Ok(n),
            Ok(_) | Err(_) => Err(fault(&mut self.faults)),
        }
    }

    /// Sends what is gathered.
    pub(crate) fn send_gathered(&mut self) -> Result<(), Failed>
        ensures none { OnOk result (self.new.gathered ≡ 0) }
        ensures cause { HasCause self.old.faults self.new.faults result }
    {
        let Some(stream) = &mut self.stream else {
            return Err(fault(&mut self.faults));
        };
        let count = self.gathered.min(PIECE);
        match stream.write_all(&self.buffer[..count]) {
            Ok(()) => {
                self.gathered = 0;
                Ok(())
            }
            Err(_) => Err(fault(&mut self.faults)),
        }
    }
}

impl Faulty for Line {
    ghost faults = { λ l. l.faults };

    fn faults(&self) -> u64 {
        self.faults
    }
}

impl Sink for Line {
    ghost held = { λ _. None };

    ghost kept = { λ _. None };

    fn write(&mut self, bytes: &[u8]) -> Result<usize, Failed> {
        if bytes.len() >= PIECE {
            self.send_gathered()?;
            return self.send(bytes);
        }
        if self.gathered >= PIECE {
            self.send_gathered()?;
        }
        let from = self.gathered;
        let count = bytes.len().min(PIECE - from);
        self.buffer[from..from + count].copy_from_slice(&bytes[..count]);
        self.gathered = from + count;
        Ok(count)
    }
}
