//! Numbers in decimal digits.
ghost use Rattle.std.specs.Prelude.{◌≡◌, ◌<◌, ◌≤◌, ◌^◌, ℕ, length, true, false, IsNone, MatchOption};
ghost use Rattle.std.specs.List.{list_all};
ghost use Rattle.std.specs.Char.{is_ascii_digit};
ghost use Rattle.std.specs.Str.Parse.{digits_value};
ghost use Rattle.kn_http.specs.Numbers.{are_digits, says};

use std::str;

/// The number that the bytes say: digits, one or more, maybe with zeros in front. `None` where they say none below 2^64, which 19
/// digits always do.
pub fn number(value: &[u8]) -> Option<u64>
    ensures short { length value.now ≤ 19 → IsNone result → are_digits value.now ≡ false }
    ensures says { MatchOption result ((n : ℕ) → n < 2 ^ 64 → says n value.now ≡ false) (λ n. says n value.now ≡ true) }
{
    if value.is_empty() || !are_digits(value) {
        return None;
    }
    parsed(value)
}

fn are_digits(value: &[u8]) -> bool
    ensures { result ≡ list_all is_ascii_digit value.now }
{
    value.iter().all(|b| b.is_ascii_digit())
}

/// The number that digits spell, where it is below 2^64.
fn parsed(digits: &[u8]) -> Option<u64>
    requires digits { list_all is_ascii_digit digits.now ≡ true }
    requires some { 0 < length digits.now }
    ensures { MatchOption result (2 ^ 64 ≤ digits_value 10 digits.now) (λ n. n ≡ digits_value 10 digits.now) }
{
    match str::from_utf8(digits) {
        Ok(digits) => digits.parse().ok(),
        Err(_) => None,
    }
}
