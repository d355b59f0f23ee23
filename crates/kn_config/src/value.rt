//! What the text of a key says, one function a kind.
ghost use Rattle.std.specs.Prelude.{◌≡◌, IfOk, MatchResult, option_map};
ghost use Rattle.serde_json.specs.Find.{get};
ghost use Rattle.serde_json.specs.View.{view};
ghost use Rattle.kn_config.specs.Keys.{IsInRange};
ghost use Rattle.kn_config.specs.Values.{text_of, number_of, percentage_of, burst_of, duration_of, seconds_of, count_of, flag_of, in_range, is_yes, is_no, IsBurstOf};

use crate::key::Key;
use kn_event::{Burst, Milli};
use kn_num::{NumError, read_duration_ms, read_milli, read_whole};
use serde_json::Value;

/// Why a key's value is refused.
#[derive(Clone, Copy)]
pub enum KeyError {
    NotText(Key),
    BadValue(Key, NumError),
    OutOfRange(Key),
}

/// The text of an object's member of this name, if it is there. A fault names the key.
pub fn text<'v>(object: &'v Value, name: &str, key: Key) -> Result<Option<&'v str>, KeyError>
    ensures { MatchResult result
        (λ text. text_of key (get name.now (view object.now)) ≡ Ok (option_map (λ s. s.now) text))
        (λ fault. text_of key (get name.now (view object.now)) ≡ Err fault) }
{
    match object.get(name) {
        None => Ok(None),
        Some(member) => match member.as_str() {
            Some(text) => Ok(Some(text)),
            None => Err(KeyError::NotText(key)),
        },
    }
}

/// The amount, where it lies in the key's range.
pub fn in_range(key: Key, amount: u64) -> Result<u64, KeyError>
    ensures value { result ≡ in_range key amount }
    ensures range { IfOk result (λ amount. IsInRange key amount) }
{
    let rule = key.rule();
    if rule.least <= amount && amount <= rule.most {
        Ok(amount)
    } else {
        Err(KeyError::OutOfRange(key))
    }
}

/// A number, or a percentage that is always one.
pub fn number(key: Key, text: &str) -> Result<Milli, KeyError>
    ensures value { result ≡ number_of key text.now }
    ensures range { IfOk result (λ number. IsInRange key number.0) }
{
    match read_milli(text.as_bytes()) {
        Ok(number) => Ok(Milli(in_range(key, number.0)?)),
        Err(fault) => Err(KeyError::BadValue(key, fault)),
    }
}

/// A percentage, where a value up to 1 is a fraction of it: 0.7 is 70 per cent, and so is 70.
pub fn percentage(key: Key, text: &str) -> Result<Milli, KeyError>
    ensures value { result ≡ percentage_of key text.now }
    ensures range { IfOk result (λ percentage. IsInRange key percentage.0) }
{
    match read_milli(text.as_bytes()) {
        Ok(Milli(number)) => {
            let percentage = if number <= 1000 { 100 * number } else { number };
            Ok(Milli(in_range(key, percentage)?))
        }
        Err(fault) => Err(KeyError::BadValue(key, fault)),
    }
}

/// A number of requests, or `-1` for no bound on them.
pub fn burst(key: Key, text: &str) -> Result<Burst, KeyError>
    ensures value { result ≡ burst_of key text.now }
    ensures range { IfOk result (λ burst. IsBurstOf key burst) }
{
    if text == "-1" {
        Ok(Burst::Unlimited)
    } else {
        Ok(Burst::Capacity(number(key, text)?))
    }
}

/// A duration, in milliseconds.
pub fn duration_ms(key: Key, text: &str) -> Result<u64, KeyError>
    ensures value { result ≡ duration_of key text.now }
    ensures range { IfOk result (λ ms. IsInRange key ms) }
{
    match read_duration_ms(text.as_bytes()) {
        Ok(ms) => in_range(key, ms),
        Err(fault) => Err(KeyError::BadValue(key, fault)),
    }
}

/// A duration of whole seconds, in seconds.
pub fn seconds(key: Key, text: &str) -> Result<u64, KeyError>
    ensures value { result ≡ seconds_of key text.now }
    ensures range { IfOk result (λ seconds. IsInRange key seconds) }
{
    match read_duration_ms(text.as_bytes()) {
        Ok(ms) => {
            if ms % 1000 != 0 {
                return Err(KeyError::OutOfRange(key));
            }
            in_range(key, ms / 1000)
        }
        Err(fault) => Err(KeyError::BadValue(key, fault)),
    }
}

/// A whole number.
pub fn count(key: Key, text: &str) -> Result<u64, KeyError>
    ensures value { result ≡ count_of key text.now }
    ensures range { IfOk result (λ count. IsInRange key count) }
{
    match read_whole(text.as_bytes()) {
        Ok(count) => in_range(key, count),
        Err(fault) => Err(KeyError::BadValue(key, fault)),
    }
}

/// A boolean, in one of its spellings.
pub fn flag(key: Key, text: &str) -> Result<bool, KeyError>
    ensures { result ≡ flag_of key text.now }
{
    if is_yes(text) {
        Ok(true)
    } else if is_no(text) {
        Ok(false)
    } else {
        Err(KeyError::BadValue(key, NumError::BadByte(0)))
    }
}

fn is_yes(text: &str) -> bool
    ensures { result ≡ is_yes text.now }
{
    text == "1" || text == "t" || text == "T" || text == "TRUE" || text == "true" || text == "True"
}

fn is_no(text: &str) -> bool
    ensures { result ≡ is_no text.now }
{
    text == "0"
        || text == "f"
        || text == "F"
        || text == "FALSE"
        || text == "false"
        || text == "False"
}
