//! A text in a buffer of its own, and its parts.
ghost use Rattle.std.specs.Prelude.{◌≡◌, ◌+◌, ◌≤◌, ◌++◌, [], length};
ghost use Rattle.std.specs.Fmt.{decimal};

use arrayvec::ArrayVec;
use itoa::Buffer;
use std::marker::Model;

/// A text of at most 8,192 bytes. Contracts see the list of them.
#[derive(Drop)]
pub struct Sheet {
    text: ArrayVec<u8, 8192>,
}

impl Model for Sheet {
    ghost use Rattle.std.specs.Prelude.{ℕ, List};

    ghost Value = { List ℕ };

    ghost view = { λ s. s.text.items };
}

impl Sheet {
    /// An empty one.
    pub fn new() -> Sheet
        ensures { result ≡ [] }
    {
        Sheet {
            text: ArrayVec::new(),
        }
    }

    /// The text, lent.
    pub fn bytes(&self) -> &[u8]
        ensures value { result.now ≡ self.now }
        ensures len { length result.now ≡ length self.now }
    {
        self.text.as_slice()
    }

    /// Empties it.
    pub fn clear(&mut self)
        ensures { self.new ≡ [] }
    {
        self.text.clear();
    }

    /// Adds bytes at the end.
    pub fn put(&mut self, bytes: &[u8])
        requires { length self.old + length bytes.now ≤ 8192 }
        ensures value { self.new ≡ self.old ++ bytes.now }
        ensures len { length self.new ≡ length self.old + length bytes.now }
    {
        let Ok(()) = self.text.try_extend_from_slice(bytes) else {
            unreachable!();
        };
    }

    /// Adds a number in decimal, of at most 39 digits.
    pub fn put_number(&mut self, n: u128)
        requires { length self.old + 40 ≤ 8192 }
        ensures value { self.new ≡ self.old ++ decimal n }
        ensures short { length self.new ≤ length self.old + 40 }
    {
        let mut digits = Buffer::new();
        self.put(digits.format(n).as_bytes());
    }
}
