//! Readers and writers of std as sources and sinks: `reader CALLS|ROOM, ROOM` and `writer CALLS|TEXT, TEXT`. Each call of the reader or the writer goes as
//! the next of the words says: `7`, seven bytes at most; `i`, a signal breaks it off; `w`, it isn't ready; `f`, it fails.
ghost use Rattle.std.specs.Prelude.{IfOk, ◌≤◌};

use crate::answers::Answer;
use crate::words::{cut, number};
use kn_io::{Faulty, ReaderSource, Sink, Source, WriterSink, put_all};
use std::io;
use std::io::{ErrorKind, Read, Write};

/// A reader of letters, and a writer that prints what it takes.
#[derive(Drop)]
struct Worded<'a> {
    rt: &'a HostRuntime,
    calls: &'a str,
    given: u64,
}

impl Worded<'_> {
    /// Of how many bytes the next call takes or gives some, where so many are there.
    fn next(&mut self, most: usize) -> io::Result<usize>
        ensures { IfOk result (λ count. count ≤ most) }
    {
        let (call, rest) = cut(self.calls, ' ');
        self.calls = rest;
        match call {
            "i" => Err(io::Error::from(ErrorKind::Interrupted)),
            "w" => Err(io::Error::from(ErrorKind::WouldBlock)),
            "f" => Err(io::Error::from(ErrorKind::Other)),
            _ => Ok(most.min(number(call) as usize)),
        }
    }
}

impl Read for Worded<'_> {
    fn read(&mut self, buf: &mut [u8]) -> io::Result<usize> {
        let count = self.next(buf.len())?;
        for byte in buf[..count].iter_mut() {
            *byte = b'a' + (self.given % 26) as u8;
            self.given = self.given.wrapping_add(1);
        }
        Ok(count)
    }
}

impl Write for Worded<'_> {
    fn write(&mut self, buf: &[u8]) -> io::Result<usize> {
        let count = self.next(buf.len())?;
        print!(self.rt; " {}", Answer::text(&buf[..count]))?;
        Ok(count)
    }

    fn flush(&mut self) -> io::Result<()> {
        Ok(())
    }
}

/// Reads with so much room, and shows how many bytes came, and the first of them.
fn read<S: Source>(rt: &HostRuntime, source: &mut S, room: u64) -> io::Result<()> {
    let mut buf = vec![in rt.alloc(); b'-'; room.min(1_000_000) as usize]?;
    match source.read(&mut buf) {
        Ok(count) => println!(rt;
            "  {room}: {count} {}, faults {}",
            Answer::text(&buf[..count.min(8)]),
            source.faults()
        ),
        Err(_) => println!(rt; "  {room}: failed, faults {}", source.faults()),
    }
}

/// Shows what a source gives.
pub fn show_reader(rt: &HostRuntime, calls: &str, rooms: &str) -> io::Result<()> {
    let mut source = ReaderSource::new(Worded {
        rt,
        calls,
        given: 0,
    });
    for room in rooms.split(", ") {
        read(rt, &mut source, number(room))?;
    }
    Ok(())
}

/// Writes all of a text, or once where it is empty, and shows what is taken of it.
fn put<O: Sink>(rt: &HostRuntime, out: &mut O, text: &str) -> io::Result<()> {
    print!(rt; "  {text}:")?;
    let went_well = if text.is_empty() {
        out.write(b"").is_ok()
    } else {
        put_all(out, text.as_bytes()).is_ok()
    };
    println!(rt; " {}, faults {}", Answer::of(went_well), out.faults())
}

/// Shows what a sink takes.
pub fn show_writer(rt: &HostRuntime, calls: &str, texts: &str) -> io::Result<()> {
    let mut out = WriterSink::new(Worded {
        rt,
        calls,
        given: 0,
    });
    for text in texts.split(", ") {
        put(rt, &mut out, text)?;
    }
    Ok(())
}
