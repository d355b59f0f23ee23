//! A line of text, and its parts.
ghost use Rattle.std.specs.Prelude.{◌≡◌, ◌+◌, ◌≤◌, ◌++◌, [], length};
ghost use Rattle.std.specs.Fmt.{decimal};
ghost use Rattle.kn_event.specs.EntryLine.{labelled, with_number, with_numbers};

use arrayvec::ArrayVec;
use itoa::{Buffer, Integer};
use std::marker::Model;

/// The bytes of one line, at most 1,024. Contracts see the list of them.
#[derive(Drop)]
pub struct Line {
    text: ArrayVec<u8, 1024>,
}

impl Model for Line {
    ghost use Rattle.std.specs.Prelude.{ℕ, List};

    ghost Value = { List ℕ };

    ghost view = { λ l. l.text.items };
}

impl Line {
    /// An empty line.
    pub fn new() -> Line
        ensures { result ≡ [] }
    {
        Line {
            text: ArrayVec::new(),
        }
    }

    /// The bytes, lent.
    pub fn bytes(&self) -> &[u8]
        ensures { result.now ≡ self.now }
    {
        self.text.as_slice()
    }

    /// Empties the line.
    pub fn clear(&mut self)
        ensures { self.new ≡ [] }
    {
        self.text.clear();
    }

    /// Adds bytes at the end.
    pub fn put(&mut self, bytes: &[u8])
        requires { length self.old + length bytes.now ≤ 1024 }
        ensures { self.new ≡ self.old ++ bytes.now }
    {
        let Ok(()) = self.text.try_extend_from_slice(bytes) else {
            unreachable!();
        };
    }

    /// Adds a number in decimal, at most 40 bytes.
    pub fn put_integer<I: Integer>(&mut self, n: I)
        requires { length self.old ≤ 984 }
        ensures value { self.new ≡ self.old ++ I.text n }
        ensures short { length self.new ≤ length self.old + 40 }
    {
        let mut digits = Buffer::new();
        self.put(digits.format(n).as_bytes());
    }

    /// A word and the value that it names.
    #[tactic(auto, using(std::proofs::Common::append_assoc), unfolding(crate::specs::EntryLine::labelled))]
    pub(crate) fn put_labelled(&mut self, word: &[u8], value: &[u8])
        requires { length self.old + length word.now + length value.now ≤ 1024 }
        ensures value { self.new ≡ self.old ++ labelled word.now value.now }
        ensures short { length self.new ≡ length self.old + length word.now + length value.now }
    {
        self.put(word);
        self.put(value);
    }

    /// A word and a number after a space.
    #[tactic(auto, using(std::proofs::Common::append_assoc), unfolding(crate::specs::EntryLine::with_number))]
    pub(crate) fn put_number(&mut self, word: &[u8], n: u64)
        requires { length self.old + length word.now ≤ 960 }
        ensures value { self.new ≡ self.old ++ with_number word.now n }
        ensures short { length self.new ≤ length self.old + length word.now + 41 }
    {
        self.put(word);
        self.put(b" ");
        self.put_integer(n);
    }

    /// A word and two numbers, each after a space.
    #[tactic(auto, using(std::proofs::Common::append_assoc), unfolding(crate::specs::EntryLine::with_number, crate::specs::EntryLine::with_numbers))]
    pub(crate) fn put_numbers(&mut self, word: &[u8], m: u64, n: u64)
        requires { length self.old + length word.now ≤ 900 }
        ensures value { self.new ≡ self.old ++ with_numbers word.now m n }
        ensures short { length self.new ≤ length self.old + length word.now + 82 }
    {
        self.put_number(word, m);
        self.put_number(b"", n);
    }
}
