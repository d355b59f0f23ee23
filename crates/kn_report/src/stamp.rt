//! The text of a time that row after row begins with.
ghost use Rattle.std.specs.Prelude.{◌≡◌, ◌+◌, ◌/◌, ◌≤◌, ◌++◌, length, take};
ghost use Rattle.std.specs.Fmt.{decimal};

use crate::digits::{put_number, put_three};
use std::marker::Model;

/// A time from 1,000 on and its text, with the first time of its thousand: up to the next thousand only the last three
/// digits change. Contracts see the time.
#[derive(Drop)]
pub struct Stamp {
    time: u64,
    begin: u64,
    text: [u8; 24],
    len: usize,
}

impl Model for Stamp {
    ghost use Rattle.std.specs.Prelude.{ℕ, ◌≡◌, ◌*◌, ◌/◌, ◌≤◌, take};
    ghost use Rattle.std.specs.Fmt.{decimal};

    ghost Value = { ℕ };

    ghost view = { λ s. s.time };

    ghost invariant = { λ s. record {
      late : 1000 ≤ s.time;
      begin : s.begin ≡ s.time / 1000 * 1000;
      short : s.len ≤ 20;
      text : take s.len s.text ≡ decimal s.time;
    } };
}

impl Stamp {
    /// Time 1,000.
    pub fn new() -> Stamp
        ensures { result ≡ 1000 }
    {
        Stamp {
            time: 1000,
            begin: 1000,
            text: *b"100000000000000000000000",
            len: 4,
        }
    }

    /// Writes a time in decimal behind the first bytes of the room, and answers where it ends.
    #[inline]
    pub fn put(&mut self, room: &mut [u8], at: usize, time: u64) -> usize
        requires { at + 24 ≤ length room.old }
        ensures text { take result room.new ≡ take at room.old ++ decimal time }
        ensures end { result ≤ at + 20 }
    {
        if time != self.time {
            if time < self.begin || time - self.begin >= 1000 {
                return self.put_new(room, at, time);
            }
            self.change(time);
        }
        self.put_kept(room, at)
    }

    /// Keeps another time of the same thousand.
    #[inline(always)]
    fn change(&mut self, time: u64)
        requires { time / 1000 ≡ self.old / 1000 }
        ensures { self.new ≡ time }
    {
        put_three(&mut self.text, self.len - 3, time - self.begin);
        self.time = time;
    }

    /// Writes the time that is kept.
    #[inline(always)]
    fn put_kept(&self, room: &mut [u8], at: usize) -> usize
        requires { at + 24 ≤ length room.old }
        ensures text { take result room.new ≡ take at room.old ++ decimal self.now }
        ensures end { result ≤ at + 20 }
    {
        let text = self.text;
        room[at..at + 24].copy_from_slice(&text);
        at + self.len
    }

    /// Writes a time, and keeps its text.
    #[inline(never)]
    fn put_new(&mut self, room: &mut [u8], at: usize, time: u64) -> usize
        requires { at + 24 ≤ length room.old }
        ensures text { take result room.new ≡ take at room.old ++ decimal time }
        ensures end { result ≤ at + 20 }
    {
        let end = put_number(room, at, time);
        if time >= 1000 {
            self.text.copy_from_slice(&room[at..at + 24]);
            self.len = end - at;
            self.begin = time / 1000 * 1000;
            self.time = time;
        }
        end
    }
}
