//! What a client's request says of itself as its bytes come.
ghost use Rattle.std.specs.Prelude.{◌≡◌, ◌++◌, ◌∷◌, []};
ghost use Rattle.kn_http.specs.Lines.{status_line};

use kn_http::{is_named, is_word};
use std::str;

/// How much of a line is kept: more than any spelling of a field that is looked for has.
const KEPT: usize = 64;

/// `HTTP/1.0` and `HTTP/1.1`, one of which stands at the end of a first line.
const OLD: u64 = 0x4854_5450_2f31_2e30;

const NEW: u64 = 0x4854_5450_2f31_2e31;

/// What gives leave.
pub(crate) fn leave() -> &'static [u8]
    ensures { result.now ≡ status_line 100 ++ 13 ∷ 10 ∷ [] }
{
    b"HTTP/1.1 100 Continue\r\n\r\n"
}

/// Which version of HTTP the client speaks.
#[derive(Clone, Copy)]
enum Version {
    /// 1.0, in which there are no chunks and no interim answers.
    Old,
    /// 1.1.
    New,
    /// Not seen, or another one.
    Other,
}

/// What the fields say of how many bytes the body has.
#[derive(Clone, Copy, PartialEq, Eq)]
enum Size {
    /// Nothing, so there is none.
    Unsaid,
    /// So many.
    Said(u64),
    /// What isn't known here: chunks, two lengths, or what is no length.
    Unknown,
}

/// What the fields say so far.
#[derive(Clone, Copy)]
struct Said {
    /// Whether the client waits for leave to send the body.
    asks: bool,
    size: Size,
}

/// How far the request came.
#[derive(Clone, Copy, PartialEq, Eq)]
enum Stage {
    /// In the first line.
    First,
    /// In the fields.
    Fields,
    /// Behind the head. So many bytes of the body are still to come, where that is known and no more came.
    Body(Option<u64>),
}

/// The course of a client's request, byte by byte: which version of HTTP the client speaks, whether it waits for leave to send
/// the body, and whether the request came to its end and nothing behind it. It judges no request: of one that is malformed
/// it may say anything.
#[derive(Drop)]
pub(crate) struct Course {
    line: [u8; KEPT],
    // How long the line is, also where that is more than is kept.
    len: usize,
    // The last eight bytes of the line.
    last: u64,
    version: Version,
    said: Said,
    stage: Stage,
    // Whether more may have come than was heard of.
    more: bool,
}

fn asks(name: &[u8], value: &[u8]) -> bool {
    is_named(name, "expect") && is_word(value, b"100-continue")
}

/// The number that the value of a length says.
fn number(value: &[u8]) -> Size {
    match str::from_utf8(value).unwrap_or("").parse() {
        Ok(n) => Size::Said(n),
        Err(_) => Size::Unknown,
    }
}

/// What is known of the size with this field beside those before it.
fn size_with(before: Size, name: &[u8], value: &[u8]) -> Size {
    if is_named(name, "transfer-encoding") {
        Size::Unknown
    } else if !is_named(name, "content-length") {
        before
    } else if before == Size::Unsaid {
        number(value)
    } else {
        Size::Unknown
    }
}

fn with_field(before: Said, name: &[u8], value: &[u8]) -> Said {
    Said {
        asks: before.asks || asks(name, value),
        size: size_with(before.size, name, value),
    }
}

/// What the fields say with this one beside those before it. Where its line is cut, its value isn't known.
fn with_line(before: Said, line: &[u8], is_cut: bool) -> Said {
    let Some(colon) = line.iter().position(|byte| *byte == b':') else {
        return before;
    };
    let name = &line[..colon];
    if is_cut {
        with_field(before, name, b"?")
    } else {
        with_field(before, name, line[colon + 1..].trim_ascii())
    }
}

impl Course {
    /// Before the first byte of a request.
    pub(crate) fn new() -> Course {
        Course {
            line: [0; KEPT],
            len: 0,
            last: 0,
            version: Version::Other,
            said: Said {
                asks: false,
                size: Size::Unsaid,
            },
            stage: Stage::First,
            more: false,
        }
    }

    /// Whether the client speaks HTTP/1.0.
    pub(crate) fn is_old(&self) -> bool {
        self.version == Version::Old
    }

    /// Whether head and body came whole, and nothing more. A request of which that isn't known has not.
    pub(crate) fn is_whole(&self) -> bool {
        self.stage == Stage::Body(Some(0)) && !self.more
    }

    /// Whether leave is to be given before more is read: behind a head that asks for it, where nothing of the body came. It
    /// is so once, and only where the body is asked for, so where the head was found good.
    pub(crate) fn take_due(&mut self) -> bool {
        let is_new = self.version == Version::New;
        let due = is_new && self.said.asks && matches!(self.stage, Stage::Body(_));
        if due {
            self.said.asks = false;
        }
        due
    }

    /// Bytes of the request came, behind which there may be more already, or there were none when these were read.
    pub(crate) fn hear(&mut self, bytes: &[u8], more: bool) {
        self.more = more;
        for (i, byte) in bytes.iter().enumerate() {
            if let Stage::Body(left) = self.stage {
                self.hear_body(left, bytes.len() - i);
                return;
            }
            self.hear_byte(*byte);
        }
    }

    /// So many bytes came behind the head. What they are to ask leave for is there.
    fn hear_body(&mut self, left: Option<u64>, count: usize) {
        self.said.asks = false;
        self.stage = Stage::Body(left.and_then(|left| left.checked_sub(count as u64)));
    }

    /// A byte of the head.
    fn hear_byte(&mut self, byte: u8) {
        match byte {
            b'\r' => {}
            b'\n' => self.end_line(),
            _ => {
                self.last = self.last << 8 | u64::from(byte);
                if let Some(place) = self.line.get_mut(self.len) {
                    *place = byte;
                }
                self.len = self.len.saturating_add(1);
            }
        }
    }

    /// A line of the head ended. Empty ones may stand before the first.
    fn end_line(&mut self) {
        match self.stage {
            Stage::First if self.len > 0 => self.end_first(),
            Stage::Fields if self.len > 0 => self.end_field(),
            Stage::Fields => self.end_head(),
            Stage::First | Stage::Body(_) => {}
        }
        self.len = 0;
    }

    fn end_first(&mut self) {
        self.version = match self.last {
            OLD => Version::Old,
            NEW => Version::New,
            _ => Version::Other,
        };
        self.stage = Stage::Fields;
    }

    fn end_field(&mut self) {
        let line = &self.line[..self.len.min(KEPT)];
        self.said = with_line(self.said, line, self.len > KEPT);
    }

    fn end_head(&mut self) {
        self.stage = Stage::Body(match self.said.size {
            Size::Unsaid => Some(0),
            Size::Said(n) => Some(n),
            Size::Unknown => None,
        });
    }
}
