//! The words of a line.

use crate::answers::Bytes;

/// What stands before this sign in a text, and what stands behind it: nothing where it isn't there.
pub fn cut(text: &str, sign: char) -> (&str, &str) {
    text.split_once(sign).unwrap_or((text, ""))
}

/// The number that a word spells. 0 where it spells none.
pub fn number(word: &str) -> u64 {
    word.parse().unwrap_or(0)
}

/// The bytes that a text spells, in which `~` is the end of a line.
pub fn spelled(text: &str) -> Bytes {
    let mut bytes = Bytes::new();
    for (i, line) in text.split('~').enumerate() {
        if i > 0 {
            bytes.put(b"\r\n");
        }
        bytes.put(line.as_bytes());
    }
    bytes
}

/// What somebody does: `WHO PLACE WHAT REST`, or `WHO PLACE-PLACE WHAT REST` where each of several does it.
#[derive(Clone, Copy)]
pub struct Act<'a> {
    pub who: &'a str,
    pub place: &'a str,
    pub what: &'a str,
    pub rest: &'a str,
}

/// The act that a text spells.
pub fn act_of(text: &str) -> Act<'_> {
    let (who, rest) = cut(text, ' ');
    let (place, rest) = cut(rest, ' ');
    let (what, rest) = cut(rest, ' ');
    Act {
        who,
        place,
        what,
        rest,
    }
}
