//! Durations: `0`, or parts such as `1h` and `30s`.
ghost use Rattle.std.specs.Prelude.{◌≡◌, ℕ, ◌+◌, ◌^◌, ◌<◌, ◌≤◌, List, length, Ok, IfOk};
ghost use Rattle.kn_num.specs.Spelling.{IsDuration};
ghost use Rattle.kn_num.specs.Capped.{above};
ghost use Rattle.kn_num.specs.Duration.{unit_at, unit_ms, unit_length, part_at, part_of, part_ms, duration_ms_of};

use crate::error::NumError;
use crate::number::{GREATEST, Number, number_at};

/// The longest duration, in milliseconds.
const LONGEST: u64 = 1 << 42;

/// What a part of a duration counts.
#[derive(Clone, Copy)]
pub enum TimeUnit {
    Hours,
    Minutes,
    Seconds,
    Milliseconds,
}

/// A part of a duration: a number and its unit.
#[derive(Clone, Copy)]
pub struct Part {
    pub ms: u64,
    /// The bytes that it takes.
    pub length: usize,
}

impl TimeUnit {
    fn ms(self) -> u64
        ensures { result ≡ unit_ms self }
    {
        match self {
            TimeUnit::Hours => 3_600_000,
            TimeUnit::Minutes => 60_000,
            TimeUnit::Seconds => 1000,
            TimeUnit::Milliseconds => 1,
        }
    }

    fn length(self) -> usize
        ensures { result ≡ unit_length self }
    {
        match self {
            TimeUnit::Milliseconds => 2,
            _ => 1,
        }
    }
}

/// The milliseconds of a duration of at most 2^42 ms.
pub fn read_duration_ms(text: &[u8]) -> Result<u64, NumError>
    ensures { result ≡ duration_ms_of text.now }
{
    if text.is_empty() {
        return Err(NumError::Empty);
    }
    if text == b"0".as_slice() {
        return Ok(0);
    }
    let mut total = 0;
    let mut place = 0;
    while place < text.len() {
        let part = part_at(&text[place..], place)?;
        total = (total + part.ms).min(LONGEST + 1);
        place += part.length;
    }
    if total > LONGEST {
        return Err(NumError::TooLarge);
    }
    Ok(total)
}

/// What is read as a duration is spelled as one, and what is spelled as one is read, up to 2^42 ms. A text has at most
/// one value.
pub fn durations_are_spelled()
    ensures read { (text : List ℕ) (ms : ℕ) → duration_ms_of text ≡ Ok ms
        → IsDuration text ms × (ms ≤ 4398046511104) }
    ensures spelled { (text : List ℕ) (ms : ℕ) → IsDuration text ms
        → ms ≤ 4398046511104 → duration_ms_of text ≡ Ok ms }
    ensures one { (text : List ℕ) (a : ℕ) (b : ℕ) → IsDuration text a → IsDuration text b → a ≡ b }
{}

/// The part at the front of this text, whose first byte stands at `place`.
fn part_at(text: &[u8], place: usize) -> Result<Part, NumError>
    requires { place + length text.now < 2 ^ 64 }
    ensures value { result ≡ part_at place text.now }
    ensures some { IfOk result (λ part. 0 < part.length) }
    ensures within { IfOk result (λ part. part.length ≤ length text.now) }
    ensures bound { IfOk result (λ part. part.ms ≤ 2 ^ 52) }
{
    let number = number_at(text, place)?;
    let place = place + number.length;
    let unit = unit_at(&text[number.length..], place)?;
    part_of(place, number, unit)
}

/// The part of this number and this unit, which stands at `place`.
fn part_of(place: usize, number: Number, unit: TimeUnit) -> Result<Part, NumError>
    requires whole { number.whole ≤ above }
    requires thousandths { number.thousandths < 10000000 }
    requires short { number.length + 2 < 2 ^ 64 }
    ensures value { result ≡ part_of place number unit }
    ensures length { IfOk result (λ part. part.length ≡ number.length + unit_length unit) }
    ensures bound { IfOk result (λ part. part.ms ≤ 2 ^ 52) }
{
    if number.thousandths * unit.ms() % 1000 != 0 {
        return Err(NumError::TooFine(place));
    }
    Ok(Part {
        ms: part_ms(number, unit),
        length: number.length + unit.length(),
    })
}

/// The milliseconds of this many units. A number above 10^9 counts as longer than every duration.
fn part_ms(number: Number, unit: TimeUnit) -> u64
    requires whole { number.whole ≤ above }
    requires thousandths { number.thousandths < 10000000 }
    ensures value { result ≡ part_ms number unit }
    ensures bound { result ≤ 2 ^ 52 }
{
    let thousandths = 1000 * number.whole + number.thousandths;
    if thousandths > 1000 * GREATEST {
        LONGEST + 1
    } else {
        thousandths * unit.ms() / 1000
    }
}

/// The unit at the front of this text, whose first byte stands at `place`.
fn unit_at(text: &[u8], place: usize) -> Result<TimeUnit, NumError>
    ensures value { result ≡ unit_at place text.now }
    ensures within { IfOk result (λ unit. unit_length unit ≤ length text.now) }
{
    if text.starts_with(b"ms") {
        Ok(TimeUnit::Milliseconds)
    } else if text.starts_with(b"h") {
        Ok(TimeUnit::Hours)
    } else if text.starts_with(b"m") {
        Ok(TimeUnit::Minutes)
    } else if text.starts_with(b"s") {
        Ok(TimeUnit::Seconds)
    } else {
        Err(NumError::NoUnit(place))
    }
}
