//! The bytes that were read ahead of what was taken.
ghost use Rattle.std.specs.Prelude.{◌≡◌, ◌-◌, ◌<◌, ◌≤◌, [], length, take, drop, IfErr, OnOk};
ghost use Rattle.std.specs.Io.KnownBytes.{Keeps};
ghost use Rattle.kn_io.specs.Causes.{Rose};
ghost use Rattle.kn_head.specs.Told.{unread, Stops};
ghost use Rattle.kn_head.specs.Heads.{limit};
ghost use Rattle.kn_head.specs.Calls.{DrawsSource};

use crate::head::HeadError;
use kn_io::{Failed, Source};
use std::marker::Model;

/// At most 16,384 bytes that wait to be taken. Contracts see the list of them.
#[derive(Drop)]
pub(crate) struct Window {
    buffer: [u8; 16384],
    start: usize,
    end: usize,
}

impl Model for Window {
    ghost use Rattle.std.specs.Prelude.{ℕ, ◌≤◌, List, take, drop};

    ghost Value = { List ℕ };

    ghost view = { λ w. drop w.start (take w.end w.buffer) };

    ghost invariant = { λ w. record { order : w.start ≤ w.end; inside : w.end ≤ 16384 } };
}

/// Moves the bytes from `start` to `end` to the front, and says where they end now.
fn pack(buffer: &mut [u8], start: usize, end: usize) -> usize
    requires order { start ≤ end }
    requires inside { end ≤ length buffer.old }
    ensures end { result ≡ end - start }
    ensures bytes { take result buffer.new ≡ drop start (take end buffer.old) }
    ensures length { length buffer.new ≡ length buffer.old }
{
    buffer[..end].rotate_left(start);
    end - start
}

impl Window {
    /// No bytes wait.
    pub(crate) fn new() -> Window
        ensures { result ≡ [] }
    {
        Window {
            buffer: [0; 16384],
            start: 0,
            end: 0,
        }
    }

    /// The bytes that wait, lent.
    pub(crate) fn bytes(&self) -> &[u8]
        ensures value { result.now ≡ self.now }
        ensures short { length self.now ≤ limit }
        ensures len { length result.now ≡ length self.now }
    {
        &self.buffer[..self.end][self.start..]
    }

    /// Takes the first of them.
    pub(crate) fn advance(&mut self, n: usize)
        requires { n ≤ length self.old }
        ensures { self.new ≡ drop n self.old }
    {
        self.start += n;
    }

    /// Reads more bytes, at least one, behind those that wait, which stay on an error. `EndedEarly` is the end of the source.
    pub(crate) fn fill<S: Source>(&mut self, source: &mut S) -> Result<(), HeadError>
        requires { length self.old < limit }
        ensures more { OnOk result (length self.old < length self.new) }
        ensures stays { OnOk result (Keeps (unread self.old (S.left source.old)) (unread self.new (S.left source.new))) }
        ensures stops { IfErr result (Stops self.old (unread self.old (S.left source.old))) }
        ensures kept { IfErr result (λ _. self.new ≡ self.old) }
        ensures fault { result ≡ Err HeadError.ReadFault → Rose (S.Faulty.faults source.old) (S.Faulty.faults source.new) }
        ensures source { DrawsSource S.Source.own S.Faulty source.old source.new }
    {
        self.end = pack(&mut self.buffer, self.start, self.end);
        self.start = 0;
        match source.read(&mut self.buffer[self.end..]) {
            Ok(0) => Err(HeadError::EndedEarly),
            Ok(n) => {
                self.end += n;
                Ok(())
            }
            Err(Failed) => Err(HeadError::ReadFault),
        }
    }

    /// Reads until at least one byte waits.
    pub(crate) fn wait<S: Source>(&mut self, source: &mut S) -> Result<(), HeadError>
        ensures some { OnOk result (0 < length self.new) }
        ensures stays { OnOk result (Keeps (unread self.old (S.left source.old)) (unread self.new (S.left source.new))) }
        ensures stops { IfErr result (Stops [] (unread self.old (S.left source.old))) }
        ensures fault { result ≡ Err HeadError.ReadFault → Rose (S.Faulty.faults source.old) (S.Faulty.faults source.new) }
        ensures source { DrawsSource S.Source.own S.Faulty source.old source.new }
    {
        if self.bytes().is_empty() {
            return self.fill(source);
        }
        Ok(())
    }
}
