//! An input that is taken byte by byte, over a source that gives it in pieces.
ghost use Rattle.std.specs.Prelude.{◌≡◌, ◌+◌, ◌<◌, ◌≤◌, [], ◌∷◌, Some, true, length, drop, IfOk, IsErr, OnErr, OnOk};
ghost use Rattle.std.specs.Io.KnownBytes.{IsAtEnd, Keeps};
ghost use Rattle.kn_journal.specs.Drawing.{Draws, byte_error};
ghost use Rattle.kn_journal.specs.Reading.{TakesByte, most_taken, taken_with, unread};

use kn_event::Memory;
use kn_io::{Failed, Source};
use std::alloc::Global;
use std::marker::Model;

/// How many bytes may be taken of one input.
pub const MOST_TAKEN: u64 = 1 << 56;

/// How many bytes may be read ahead.
const AHEAD_MOST: usize = 65536;

/// The bytes that were read ahead of what was taken, and the count of the bytes taken: those before the buffer's, and those
/// before its start. The buffer lies on the heap, since an input is moved before it is used.
#[derive(Drop)]
pub struct Input {
    buffer: Vec<u8>,
    start: usize,
    end: usize,
    before: u64,
}

impl Model for Input {
    ghost use Rattle.std.specs.Prelude.{◌≡◌, ◌+◌, ◌≤◌, take, drop, length};
    ghost use Rattle.kn_journal.specs.Reading.{Ahead, most_taken};

    ghost Value = { Ahead };

    ghost view = { λ r. record { ahead = drop r.start (take r.end r.buffer.items); taken = r.before + r.start } };

    ghost invariant = { λ r. record {
      order : r.start ≤ r.end;
      inside : r.end ≤ 65536;
      room : length r.buffer.items ≡ 65536;
      few : r.before + r.start ≤ most_taken;
    } };
}

impl Input {
    /// An input of which nothing was read. `Memory` where there is none for the 65,536 bytes that may be ahead.
    pub fn new(alloc: Global) -> Result<Input, Memory>
        ensures ahead { IfOk result (λ r. r.ahead ≡ []) }
        ensures taken { IfOk result (λ r. r.taken ≡ 0) }
    {
        match vec![in alloc; 0; AHEAD_MOST] {
            Ok(buffer) => Ok(Input {
                buffer,
                start: 0,
                end: 0,
                before: 0,
            }),
            Err(_) => Err(Memory),
        }
    }

    /// The bytes that were read ahead, lent.
    #[inline(always)]
    pub fn ahead(&self) -> &[u8]
        ensures { result.now ≡ self.now.ahead }
    {
        &self.buffer[self.start..self.end]
    }

    /// How many bytes were read ahead.
    pub fn ahead_len(&self) -> usize
        ensures value { result ≡ length self.now.ahead }
        ensures most { length self.now.ahead ≤ 65536 }
    {
        self.end - self.start
    }

    /// How many more bytes may be taken.
    #[inline(always)]
    pub fn may_take(&self) -> u64
        ensures { self.now.taken + result ≡ most_taken }
    {
        MOST_TAKEN - self.before - self.start as u64
    }

    /// Whether all bytes that are ahead may be taken. False says nothing.
    #[inline(always)]
    pub fn may_take_all(&self) -> bool
        ensures { result ≡ true → self.now.taken + length self.now.ahead ≤ most_taken }
    {
        self.before <= MOST_TAKEN - AHEAD_MOST as u64
    }

    /// Takes bytes that were read ahead.
    #[inline(always)]
    pub fn skip(&mut self, n: usize)
        requires ahead { n ≤ length self.old.ahead }
        requires few { self.old.taken + n ≤ most_taken }
        ensures ahead { self.new.ahead ≡ drop n self.old.ahead }
        ensures taken { self.new.taken ≡ self.old.taken + n }
    {
        self.start += n;
    }

    /// Takes the first byte that was read ahead.
    #[inline(always)]
    fn take_first(&mut self) -> u8
        requires some { 0 < length self.old.ahead }
        requires few { self.old.taken < most_taken }
        ensures ahead { self.old.ahead ≡ result ∷ self.new.ahead }
        ensures taken { self.new.taken ≡ self.old.taken + 1 }
    {
        let byte = self.buffer[self.start];
        self.start += 1;
        byte
    }

    /// Reads from the source, where nothing is ahead. Afterwards nothing is ahead at the end of the source alone.
    fn refill<S: Source>(&mut self, source: &mut S) -> Result<(), Failed>
        requires { self.old.ahead ≡ [] }
        ensures unread { OnOk result (Keeps (unread self.old (S.left source.old)) (unread self.new (S.left source.new))) }
        ensures end { OnOk result (self.new.ahead ≡ [] → IsAtEnd (S.left source.new)) }
        ensures taken { self.new.taken ≡ self.old.taken }
        ensures failed { OnErr result (self.new ≡ self.old) }
        ensures source { Draws Keeps (byte_error result) self.old self.new S.Source.own S.Faulty source.old source.new }
    {
        self.before += self.start as u64;
        self.start = 0;
        self.end = 0;
        self.end = source.read(&mut self.buffer)?;
        Ok(())
    }

    /// The next byte, or nothing at the end. It reads from the source only where nothing is ahead,
    /// and after 2^56 bytes it takes no more.
    pub fn next<S: Source>(&mut self, source: &mut S) -> Result<Option<u8>, Failed>
        ensures byte { IfOk result (TakesByte (unread self.old (S.left source.old)) (unread self.new (S.left source.new))) }
        ensures taken { IfOk result (λ byte. self.new.taken ≡ taken_with self.old.taken byte) }

        // While there are bytes ahead, the source is left alone.
        ensures ready { 0 < length self.old.ahead → source.new ≡ source.old }
        ensures front { 0 < length self.old.ahead → IfOk result (TakesByte (Some self.old.ahead) (Some self.new.ahead)) }

        // At a fault nothing was taken.
        ensures failed { OnErr result (self.new ≡ self.old) }
        ensures source { Draws Keeps (byte_error result) self.old self.new S.Source.own S.Faulty source.old source.new }

        ensures full { self.old.taken ≡ most_taken → IsErr result }
        ensures few { self.new.taken ≤ most_taken }
    {
        if self.may_take() == 0 {
            return Err(Failed);
        }
        if self.start < self.end {
            return Ok(Some(self.take_first()));
        }
        self.refill(source)?;
        if self.start == self.end {
            return Ok(None);
        }
        Ok(Some(self.take_first()))
    }
}
