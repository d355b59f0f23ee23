//! What comes of an act.

use std::fmt;

/// How many bytes of a text are kept.
const MOST: usize = 256;

/// The first bytes of a text.
#[derive(Clone, Copy)]
pub struct Bytes {
    all: [u8; MOST],
    count: usize,
}

impl Bytes {
    /// None so far.
    pub fn new() -> Bytes {
        Bytes {
            all: [0; MOST],
            count: 0,
        }
    }

    /// These behind the others, as far as there is room.
    pub fn put(&mut self, bytes: &[u8]) {
        let from = self.count.min(MOST);
        let more = bytes.len().min(MOST - from);
        self.all[from..from + more].copy_from_slice(&bytes[..more]);
        self.count = from + more;
    }

    pub fn get(&self) -> &[u8] {
        &self.all[..self.count.min(MOST)]
    }
}

impl fmt::Display for Bytes {
    /// In quotation marks, with `~` for the end of a line.
    fn fmt<W: fmt::Write>(&self, f: &mut fmt::Formatter<W>) -> fmt::Result {
        f.write_char('"')?;
        for byte in self.get() {
            match byte {
                b'\r' => {}
                b'\n' => f.write_char('~')?,
                _ => f.write_char(char::from(*byte))?,
            }
        }
        f.write_char('"')
    }
}

/// What comes of an act.
#[derive(Clone, Copy)]
pub enum Answer {
    /// Whether it is so; of what is done, that it went well.
    Is(bool),
    Failed,
    Count(u64),
    Counts([u64; 3]),
    Text(Bytes),
}

impl Answer {
    /// Whether it went well.
    pub fn of(went_well: bool) -> Answer {
        if went_well {
            Answer::Is(true)
        } else {
            Answer::Failed
        }
    }

    /// The first of these bytes.
    pub fn text(bytes: &[u8]) -> Answer {
        let mut text = Bytes::new();
        text.put(bytes);
        Answer::Text(text)
    }
}

impl fmt::Display for Answer {
    fn fmt<W: fmt::Write>(&self, f: &mut fmt::Formatter<W>) -> fmt::Result {
        match self {
            Answer::Is(true) => f.write_str("yes"),
            Answer::Is(false) => f.write_str("no"),
            Answer::Failed => f.write_str("failed"),
            Answer::Count(count) => write!(f, "{count}"),
            Answer::Counts([first, second, third]) => write!(f, "{first} {second} {third}"),
            Answer::Text(bytes) => write!(f, "{bytes}"),
        }
    }
}
