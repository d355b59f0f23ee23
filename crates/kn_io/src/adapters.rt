//! Readers and writers of std as sources and sinks. They tell the content that std tells of them: of standard
//! input, output and error none.
ghost use Rattle.std.specs.Prelude.{◌≡◌, ◌≤◌, ◌<◌, None, IfOk, MatchResult, length, take, drop};
ghost use Rattle.std.specs.Io.KnownBytes.{Appends, Consumes, IsAtEnd, Keeps};
ghost use Rattle.kn_io.specs.Causes.{Rose};

use crate::traits::{Failed, Faulty, Sink, Source};
use std::io;
use std::io::{ErrorKind, Read, Write};
use std::thread::yield_now;

/// How many bytes are read from a connection at once, and copied at once.
pub const PIECE: usize = 8192;

/// How many bytes a reader is asked for at once: as many as a journal's reader keeps ahead.
const READ: usize = 65536;

/// How often a call is made that ends in no error but those that pass.
const TRIES: u64 = u64::MAX;

/// Whether the same call may go well a moment later: a signal broke it off, or a stream that doesn't wait wasn't ready.
fn is_passing(error: &io::Error) -> bool {
    matches!(error.kind(), ErrorKind::Interrupted | ErrorKind::WouldBlock)
}

/// Counts a fault. The count stops at the greatest u64.
pub fn fault(faults: &mut u64) -> Failed
    ensures rose { Rose faults.old faults.new }
    ensures never_falls { faults.old ≤ faults.new }
{
    *faults = faults.saturating_add(1);
    Failed
}

/// Copies bytes piece by piece. (the C library copies larger pieces by one instruction that is repeated for each byte)
fn copy(from: &[u8], to: &mut [u8])
    requires { length to.old ≡ length from.now }
    ensures { to.new ≡ from.now }
{
    let mut at = 0;
    while at < from.len() {
        let end = from.len().min(at + PIECE);
        to[at..end].copy_from_slice(&from[at..end]);
        at = end;
    }
}

/// Reads once, through another buffer, since a reader may write past what it answers.
fn read_through<R: Read>(reader: &mut R, own: &mut [u8], buf: &mut [u8]) -> io::Result<usize>
    requires { 0 < length own.old }
    ensures bound { IfOk result (λ n. n ≤ length buf.old) }
    ensures piece { IfOk result (λ n. n ≤ length own.old) }
    ensures moved { MatchResult result
        (λ n. Consumes (R.remaining reader.old) (R.remaining reader.new) (take n buf.new))
        (λ _. Keeps (R.remaining reader.old) (R.remaining reader.new)) }
    ensures end { IfOk result (λ n. n ≡ 0 → 0 < length buf.old → IsAtEnd (R.remaining reader.new)) }
    ensures rest_of_buffer { MatchResult result (λ n. drop n buf.new ≡ drop n buf.old) (λ _. buf.new ≡ buf.old) }
{
    let most = buf.len().min(own.len());
    let n = reader.read(&mut own[..most])?;
    copy(&own[..n], &mut buf[..n]);
    Ok(n)
}

/// Reads once, through a buffer of its own, since a reader may write past what it answers.
pub fn read_piece<R: Read>(
    reader: &mut R,
    own: &mut [u8; PIECE],
    buf: &mut [u8],
) -> io::Result<usize>
    ensures bound { IfOk result (λ n. n ≤ length buf.old) }
    ensures piece { IfOk result (λ n. n ≤ 8192) }
    ensures moved { MatchResult result
        (λ n. Consumes (R.remaining reader.old) (R.remaining reader.new) (take n buf.new))
        (λ _. Keeps (R.remaining reader.old) (R.remaining reader.new)) }
    ensures end { IfOk result (λ n. n ≡ 0 → 0 < length buf.old → IsAtEnd (R.remaining reader.new)) }
    ensures rest_of_buffer { MatchResult result (λ n. drop n buf.new ≡ drop n buf.old) (λ _. buf.new ≡ buf.old) }
{
    read_through(reader, &mut own[..], buf)
}

/// Reads once, and again as long as what ended the read passes.
fn read_at_last<R: Read>(
    reader: &mut R,
    own: &mut [u8; READ],
    buf: &mut [u8],
) -> Result<usize, Failed>
    ensures bound { IfOk result (λ n. n ≤ length buf.old) }
    ensures piece { IfOk result (λ n. n ≤ 65536) }
    ensures moved { MatchResult result
        (λ n. Consumes (R.remaining reader.old) (R.remaining reader.new) (take n buf.new))
        (λ _. Keeps (R.remaining reader.old) (R.remaining reader.new)) }
    ensures end { IfOk result (λ n. n ≡ 0 → 0 < length buf.old → IsAtEnd (R.remaining reader.new)) }
    ensures rest_of_buffer { MatchResult result (λ n. drop n buf.new ≡ drop n buf.old) (λ _. buf.new ≡ buf.old) }
{
    for _ in 0..TRIES {
        match read_through(reader, &mut own[..], buf) {
            Ok(n) => return Ok(n),
            Err(error) if is_passing(&error) => yield_now(),
            Err(_) => return Err(Failed),
        }
    }
    Err(Failed)
}

/// Writes once, and again as long as what ended the write passes.
fn write_at_last<W: Write>(writer: &mut W, bytes: &[u8]) -> Result<usize, Failed>
    ensures bound { IfOk result (λ n. n ≤ length bytes.now) }
    ensures taken { MatchResult result
        (λ n. Appends (W.contents writer.old) (W.contents writer.new) (take n bytes.now))
        (λ _. Keeps (W.contents writer.old) (W.contents writer.new)) }
{
    for _ in 0..TRIES {
        match writer.write(bytes) {
            Ok(n) => return Ok(n),
            Err(error) if is_passing(&error) => yield_now(),
            Err(_) => return Err(Failed),
        }
    }
    Err(Failed)
}

/// A reader of std. Each error of it is a fault, and so is a read for which the count of the bytes given has no room. A read
/// that a signal broke off, or that found a stream not ready, is made again while other threads run.
#[derive(Drop)]
pub struct ReaderSource<R> {
    reader: R,
    buffer: [u8; READ],
    given: u128,
    faults: u64,
}

impl<R: Read> ReaderSource<R> {
    /// A source that reads from here, without faults so far.
    pub fn new(reader: R) -> ReaderSource<R>
        ensures faults { ⟦<ReaderSource<R> as Faulty>⟧.faults result ≡ 0 }
        ensures given { ⟦<ReaderSource<R> as Source>⟧.given result ≡ 0 }
    {
        ReaderSource {
            reader,
            buffer: [0; READ],
            given: 0,
            faults: 0,
        }
    }
}

impl<R: Read> Faulty for ReaderSource<R> {
    ghost faults = { λ s. s.faults };

    fn faults(&self) -> u64 {
        self.faults
    }
}

impl<R: Read> Source for ReaderSource<R> {
    ghost left = { λ s. R.remaining s.reader };

    ghost apart = { λ _. None };

    ghost given = { λ s. s.given };

    fn read(&mut self, buf: &mut [u8]) -> Result<usize, Failed> {
        if self.given > u128::MAX - READ as u128 {
            return Err(fault(&mut self.faults));
        }
        match read_at_last(&mut self.reader, &mut self.buffer, buf) {
            Ok(n) => {
                self.given += n as u128;
                Ok(n)
            }
            Err(Failed) => Err(fault(&mut self.faults)),
        }
    }
}

/// A writer of std. Each error of it is a fault, and so is a write of 0 bytes of a piece that isn't empty. A write that a
/// signal broke off, or that found a stream not ready, is made again while other threads run.
#[derive(Drop)]
pub struct WriterSink<W> {
    writer: W,
    faults: u64,
}

impl<W: Write> WriterSink<W> {
    /// A sink that writes there, without faults so far.
    pub fn new(writer: W) -> WriterSink<W>
        ensures { ⟦<WriterSink<W> as Faulty>⟧.faults result ≡ 0 }
    {
        WriterSink { writer, faults: 0 }
    }
}

impl<W: Write> Faulty for WriterSink<W> {
    ghost faults = { λ s. s.faults };

    fn faults(&self) -> u64 {
        self.faults
    }
}

impl<W: Write> Sink for WriterSink<W> {
    ghost held = { λ s. W.contents s.writer };

    ghost kept = { λ _. None };

    fn write(&mut self, bytes: &[u8]) -> Result<usize, Failed> {
        match write_at_last(&mut self.writer, bytes) {
            Ok(n) if n > 0 || bytes.is_empty() => Ok(n),
            Ok(_) | Err(Failed) => Err(fault(&mut self.faults)),
        }
    }
}
