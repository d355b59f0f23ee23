//! A usual event whose line is ahead with its LF, in one pass.
ghost use lib.Lanes.{number_l};
ghost use Rattle.core.specs.Dec2flt.Digits.{IsEightBytes};
ghost use Rattle.core.specs.Float.Numeral.{digits_len};
ghost use Rattle.core.specs.Slice.Scan.{little_endian};
ghost use Rattle.std.specs.Prelude.{◌≡◌, ◌+◌, ◌%◌, ◌≤◌, ◌<◌, ◌^◌, ◌∷◌, ◌++◌, ℕ, length, List, take, drop, slice_range, IfSome};
ghost use Rattle.std.specs.Fmt.{decimal};
ghost use Rattle.std.specs.Int.{w32, w64, to_le_bytes};
ghost use Rattle.std.specs.Str.Parse.{digits_value};
ghost use Rattle.kn_event.specs.EventLine.{limit_most};
ghost use Rattle.kn_event.specs.PlainLine.{AreEightDigits, IsNumberAt, IsActAhead, IsLfFrom, IsNumberAhead, IsOutcomeAhead, SpellsToCrs};

use crate::digits::{few_digits, first_digits, further_digits};
use crate::event::{Act, Event};
use crate::front::Front;
use core::dec2flt::read_digits;
use std::marker::Model;

// ` arrive ` and ` finish `, the first byte in the lowest place.
const ARRIVE: u64 = 0x2065_7669_7272_6120;

const FINISH: u64 = 0x2068_7369_6e69_6620;

// ` tick` and the LF.
const TICK: u64 = 0x0a6b_6369_7420;

const SPACE: u64 = 0x20;

// ` ok` and the LF.
const OK: u32 = 0x0a6b_6f20;

// How large a pod's limit may be.
const LIMIT_MOST: u64 = 1000;

// In so many bytes a time of 19 digits, a word of eight bytes and one more behind it have room, so that none of them
// asks for it.
const ROOM: usize = 48;

// Both are hints, and not `always`: a call that is left for a while has its bytes read at once, also where one of them
// is looked at by itself.
#[inline]
fn half_at(s: &[u8], i: usize) -> u32
    requires { i + 4 ≤ length s.now }
    ensures { to_le_bytes w32 result ≡ slice_range s.now i (i + 4) }
{
    u32::from_le_bytes([s[i], s[i + 1], s[i + 2], s[i + 3]])
}

#[inline]
fn word_at(s: &[u8], i: usize) -> u64
    requires { i + 8 ≤ length s.now }
    ensures bytes { to_le_bytes w64 result ≡ slice_range s.now i (i + 8) }
    ensures value { result ≡ little_endian s.now i }
{
    u64::from_le_bytes([
        s[i],
        s[i + 1],
        s[i + 2],
        s[i + 3],
        s[i + 4],
        s[i + 5],
        s[i + 6],
        s[i + 7],
    ])
}

/// The digits from there on: where they end, and the number that they write modulo 2^64.
#[inline(never)]
fn digits_at(line: &[u8], from: usize) -> (usize, u64)
    requires { from ≤ length line.now }
    ensures end { result.0 ≡ from + digits_len (drop from line.now) }
    ensures within { result.0 ≤ length line.now }
    ensures value { result.1 ≡ digits_value 10 (slice_range line.now from result.0) % 2 ^ 64 }
{
    read_digits(line, from, 0)
}

/// A number of at most 19 digits, and where it ends.
#[inline(always)]
fn long_number_at(line: &[u8], from: usize) -> Option<(u64, usize)>
    requires { from ≤ length line.now }
    ensures number { IfSome result (λ p. IsNumberAt line.now from p.0 p.1) }
    ensures end { IfSome result (λ p. p.1 < from + 20) }
{
    let (end, value) = digits_at(line, from);
    let len = end - from;
    if len == 0 || len > 19 {
        return None;
    }
    if len > 1 && line[from] == b'0' {
        return None;
    }
    Some((value, end))
}

/// The same, for those that have eight digits or more.
fn many_number_at(line: &[u8], from: usize) -> Option<(u64, usize)>
    requires { from ≤ length line.now }
    ensures { IfSome result (λ p. IsNumberAt line.now from p.0 p.1) }
{
    if line.len() - from >= 16 {
        if let Some(high) = first_digits(word_at(line, from)) {
            if let Some((len, value)) = further_digits(high, word_at(line, from + 8)) {
                return Some((value, from + len));
            }
        }
    }
    long_number_at(line, from)
}

/// A number of one to seven digits, as most have, and where it ends.
#[inline(always)]
fn few_at(line: &[u8], from: usize) -> Option<(u64, usize)>
    requires { from + 8 ≤ length line.now }
    ensures number { IfSome result (λ p. IsNumberAt line.now from p.0 p.1) }
    ensures end { IfSome result (λ p. p.1 < from + 8) }
{
    let (len, value) = few_digits(word_at(line, from))?;
    Some((value, from + len))
}

/// A number of at most 19 digits, and where it ends.
fn number_at(line: &[u8], from: usize) -> Option<(u64, usize)>
    requires { from ≤ length line.now }
    ensures { IfSome result (λ p. IsNumberAt line.now from p.0 p.1) }
{
    if line.len() - from >= 8 {
        if let Some(found) = few_at(line, from) {
            return Some(found);
        }
    }
    many_number_at(line, from)
}

/// Where the LF stands that ends the line, right there or behind a CR.
///
/// More CRs aren't looked for: by a loop here LLVM no longer sees that `other_ahead` writes its answer whole, and each
/// usual line would first clear the room for that.
fn lf_from(text: &[u8], from: usize) -> Option<usize>
    requires { from ≤ length text.now }
    ensures { IfSome result (IsLfFrom text.now from) }
{
    let rest = &text[from..];
    if rest.starts_with(b"\n") {
        return Some(from);
    }
    if rest.starts_with(b"\r\n") {
        return Some(from + 1);
    }
    None
}

/// An outcome, and where the LF behind it stands, right there or behind a CR.
fn outcome_ahead(text: &[u8]) -> Option<(bool, usize)>
    ensures { IfSome result (λ p. IsOutcomeAhead text.now p.0 p.1) }
{
    if text.len() >= 4 && half_at(text, 0) == OK {
        return Some((true, 3));
    }
    if text.starts_with(b" fail") {
        let end = lf_from(text, 5)?;
        return Some((false, end));
    }
    if text.starts_with(b" ok") {
        let end = lf_from(text, 3)?;
        return Some((true, end));
    }
    None
}

/// A number at the front, and where the LF behind it stands, right there or behind a CR.
fn number_ahead(text: &[u8], from: usize) -> Option<(u64, usize)>
    requires { from ≤ length text.now }
    ensures { IfSome result (λ p. IsNumberAhead text.now from p.0 p.1) }
{
    let (n, end) = number_at(text, from)?;
    let lf = lf_from(text, end)?;
    Some((n, lf))
}

/// A pod's limit behind a space at the front, and where the LF behind it stands, right there or behind a CR.
fn limit_ahead(text: &[u8]) -> Option<(u64, usize)>
    ensures space { IfSome result (λ p. text.now ≡ 32 ∷ drop 1 text.now) }
    ensures number { IfSome result (λ p. IsNumberAhead text.now 1 p.0 p.1) }
    ensures most { IfSome result (λ p. p.0 ≤ limit_most) }
{
    if text.is_empty() || text[0] != b' ' {
        return None;
    }
    let (n, end) = number_ahead(text, 1)?;
    if n > LIMIT_MOST {
        return None;
    }
    Some((n, end))
}

/// A usual act at the front, and where the LF behind it stands, right there or behind a CR.
#[inline(never)]
fn other_ahead(text: &[u8]) -> Option<(Act, usize)>
    ensures { IfSome result (λ p. IsActAhead text.now p.0 p.1) }
{
    if text.starts_with(b" arrive ") {
        let (n, end) = number_ahead(text, 8)?;
        return Some((Act::Arrive(n), end));
    }
    if text.starts_with(b" finish ") {
        let (n, end) = number_at(text, 8)?;
        let (ok, len) = outcome_ahead(&text[end..])?;
        return Some((Act::Finish(n, ok), end + len));
    }
    if text.starts_with(b" tick") {
        let end = lf_from(text, 5)?;
        return Some((Act::Tick, end));
    }
    if text.starts_with(b" pass") {
        let end = lf_from(text, 5)?;
        return Some((Act::Pass, end));
    }
    if text.starts_with(b" ready ") {
        let (pod, end) = number_ahead(text, 7)?;
        return Some((Act::Ready(pod), end));
    }
    if text.starts_with(b" cancel ") {
        let (request, end) = number_ahead(text, 8)?;
        return Some((Act::Cancel(request), end));
    }
    if text.starts_with(b" limit ") {
        let (pod, end) = number_at(text, 7)?;
        let (limit, len) = limit_ahead(&text[end..])?;
        return Some((Act::Limit(pod, limit), end + len));
    }
    None
}

#[inline(always)]
fn arrival_ahead(text: &[u8]) -> Option<(Act, usize)>
    requires room { 24 ≤ length text.now }
    requires word { slice_range text.now 0 8 ≡ to_le_bytes w64 ARRIVE }
    ensures { IfSome result (λ p. IsActAhead text.now p.0 p.1) }
{
    if let Some((n, end)) = few_at(text, 8) {
        if text[end] == b'\n' {
            return Some((Act::Arrive(n), end));
        }
    }
    other_ahead(text)
}

#[inline(always)]
fn finish_ahead(text: &[u8]) -> Option<(Act, usize)>
    requires room { 24 ≤ length text.now }
    requires word { slice_range text.now 0 8 ≡ to_le_bytes w64 FINISH }
    ensures { IfSome result (λ p. IsActAhead text.now p.0 p.1) }
{
    if let Some((n, end)) = few_at(text, 8) {
        if half_at(text, end) == OK {
            return Some((Act::Finish(n, true), end + 3));
        }
    }
    other_ahead(text)
}

/// The same, asked of `other_ahead` where the act is no arrival or tick and no finish that is ok, or its number has
/// more than seven digits.
#[inline(always)]
fn act_ahead(text: &[u8]) -> Option<(Act, usize)>
    requires { 24 ≤ length text.now }
    ensures { IfSome result (λ p. IsActAhead text.now p.0 p.1) }
{
    let word = word_at(text, 0);
    if word == ARRIVE {
        return arrival_ahead(text);
    }
    if word == FINISH {
        return finish_ahead(text);
    }
    if Front::of(TICK, 6).begins(word) {
        return Some((Act::Tick, 5));
    }
    other_ahead(text)
}

/// A time of one to fifteen digits and its bytes, which the next line mostly begins with again.
#[derive(Drop)]
pub struct LastTime {
    time: u64,
    len: usize,
    // The bytes of the first two words of its line, as far as the byte behind the time: else 1 would be taken for the
    // time of a line of 10.
    first: Front,
    second: Front,
    // What the first eight digits are worth, where it has so many.
    high: u64,
}

impl Model for LastTime {
    ghost use Rattle.core.specs.Dec2flt.Digits.{IsEightBytes};
    ghost use Rattle.kn_event.specs.PlainLine.{AreEightDigits};
    ghost use Rattle.std.specs.Prelude.{⊤, ◌≡◌, ◌≢◌, ◌*◌, ◌%◌, ◌^◌, ◌<◌, ◌++◌, ℕ, List, take};
    ghost use Rattle.std.specs.Fmt.{decimal};
    ghost use lib.Lanes.{number_l};

    ghost Value = { ⊤ };

    ghost view = { λ r. tt };

    ghost invariant = { λ r. record {
      few : r.len < 16;
      small : r.time < 2 ^ 64;
      spelled : (xs ys : List ℕ) → IsEightBytes xs → IsEightBytes ys
          → number_l 256 xs * r.first.scale % 2 ^ 64 ≡ r.first.moved
          → number_l 256 ys * r.second.scale % 2 ^ 64 ≡ r.second.moved
          → take r.len (xs ++ ys) ≡ decimal r.time;
      scaled : r.high < 2 ^ 32;
      front : (xs : List ℕ) → IsEightBytes xs → number_l 256 xs * r.first.scale % 2 ^ 64 ≡ r.first.moved
          → (word : ℕ) → word * r.second.scale % 2 ^ 64 ≢ r.second.moved → AreEightDigits xs r.high;
    } };
}

impl LastTime {
    /// No time as yet.
    pub fn new() -> LastTime {
        LastTime {
            time: 0,
            len: 0,
            first: Front::of_none(),
            second: Front::of_any(),
            high: 0,
        }
    }

    /// The time that these first bytes of a word spell.
    #[inline(always)]
    fn keep_few(&mut self, time: u64, len: usize, word: u64)
        requires few { len < 8 }
        requires spelled { (xs : List ℕ) × IsEightBytes xs × (word ≡ number_l 256 xs) × (take len xs ≡ decimal time) }
    {
        *self = LastTime {
            time,
            len,
            first: Front::of(word, len + 1),
            second: Front::of_any(),
            high: self.high,
        };
    }

    /// The time that these first bytes of two words spell. The first word is eight digits, which are worth `high`.
    #[inline(always)]
    fn keep_many(&mut self, time: u64, len: usize, first: u64, second: u64, high: u64)
        requires many { 8 ≤ len }
        requires most { len < 16 }
        requires scaled { high < 2 ^ 32 }
        requires spelled { (xs : List ℕ) × (ys : List ℕ) × IsEightBytes xs × IsEightBytes ys
            × (first ≡ number_l 256 xs) × (second ≡ number_l 256 ys) × (take len (xs ++ ys) ≡ decimal time)
            × AreEightDigits xs high }
    {
        *self = LastTime {
            time,
            len,
            first: Front::of(first, 8),
            second: Front::of(second, len - 7),
            high,
        };
    }

    /// The number at the front, and where it ends.
    #[inline(always)]
    fn front(&mut self, line: &[u8]) -> Option<(u64, usize)>
        requires { 16 ≤ length line.now }
        ensures number { IfSome result (λ p. IsNumberAt line.now 0 p.0 p.1) }
        ensures end { IfSome result (λ p. p.1 < 20) }
    {
        let first = word_at(line, 0);
        let second = word_at(line, 8);
        if self.first.begins(first) {
            if self.second.begins(second) {
                return Some((self.time, self.len));
            }
            if let Some((len, value)) = further_digits(self.high, second) {
                self.time = value;
                self.len = len;
                self.second = Front::of(second, len - 7);
                return Some((value, len));
            }
        }
        if let Some((len, value)) = few_digits(first) {
            self.keep_few(value, len, first);
            return Some((value, len));
        }
        if let Some(high) = first_digits(first) {
            if second & 0xff == SPACE {
                self.keep_many(high, 8, first, second, high);
                return Some((high, 8));
            }
            if let Some((len, value)) = further_digits(high, second) {
                self.keep_many(value, len, first, second, high);
                return Some((value, len));
            }
        }
        long_number_at(line, 0)
    }

    /// The event of the line at the front of these bytes, and how long that line is, with the CR if one stands before
    /// its LF, where they are 48 or more and have its LF, its word is a usual one and its numbers have at most 19
    /// digits. None says nothing. Its time is kept.
    #[inline(always)]
    pub fn event_ahead(&mut self, bytes: &[u8]) -> Option<(Event, usize)>
        ensures inside { IfSome result (λ p. p.1 < length bytes.now) }
        ensures line { IfSome result (λ p. bytes.now ≡ take p.1 bytes.now ++ 10 ∷ drop (p.1 + 1) bytes.now) }
        ensures spells { IfSome result (λ p. SpellsToCrs (take p.1 bytes.now) p.0) }
    {
        if bytes.len() < ROOM {
            return None;
        }
        let (time, at) = self.front(bytes)?;
        let (act, len) = act_ahead(&bytes[at..])?;
        Some((Event { time, act }, at + len))
    }
}

/// The event of the line at the front of these bytes, and how long that line is, with the CR if one stands before its
/// LF, where they are 48 or more and have its LF, its word is a usual one and its numbers have at most 19 digits. None
/// says nothing.
pub fn event_ahead(bytes: &[u8]) -> Option<(Event, usize)>
    ensures inside { IfSome result (λ p. p.1 < length bytes.now) }
    ensures line { IfSome result (λ p. bytes.now ≡ take p.1 bytes.now ++ 10 ∷ drop (p.1 + 1) bytes.now) }
    ensures spells { IfSome result (λ p. SpellsToCrs (take p.1 bytes.now) p.0) }
{
    LastTime::new().event_ahead(bytes)
}
