//! The digits that a word of eight bytes begins with, or two such words.
ghost use Rattle.core.specs.Dec2flt.Digits.{IsEightBytes, IsEightDigits};
ghost use Rattle.core.specs.Float.Numeral.{digits_len};
ghost use Rattle.core.specs.Int.Digits.{number_from_digits};
ghost use Rattle.core.specs.Prelude.{bit_xor};
ghost use Rattle.core.specs.Slice.Scan.{digits_from, flag_word};
ghost use Rattle.std.specs.Prelude.{◌≡◌, ◌≢◌, ℕ, ◌-◌, ◌*◌, ◌%◌, ◌^◌, ◌<◌, ◌≤◌, ◌++◌, List, get_or, take, nat_le, IfSome};
ghost use Rattle.std.specs.Str.Parse.{digits_value};
ghost use lib.Lanes.{number_l};

use core::dec2flt::ten_to;

// A `0` in each byte. The lanes of a word are its bytes with this taken off, so that a digit's lane is its value.
const ZEROS: u64 = 0x3030_3030_3030_3030;

/// The number that eight digits write, the first of them in the lowest byte.
#[inline(always)]
fn value_of_eight(word: u64) -> u64
    ensures value { (ds : List ℕ) → IsEightDigits ds → word ≡ number_l 256 ds → result ≡ number_from_digits 10 ds }
    ensures small { result < 2 ^ 32 }
{
    let pairs = word.wrapping_mul(10).wrapping_add(word >> 8);
    let first = (pairs & 0x0000_00ff_0000_00ff).wrapping_mul(100 + (1_000_000 << 32));
    let second = ((pairs >> 16) & 0x0000_00ff_0000_00ff).wrapping_mul(1 + (10_000 << 32));
    first.wrapping_add(second) >> 32
}

/// The high bit of each byte that is 10 or more. No sum carries into the next byte.
#[inline(always)]
fn flags_from_ten(word: u64) -> u64
    ensures { (byte : ℕ → ℕ) → ((k : ℕ) → byte k < 256) → word ≡ digits_from byte 0 8
        → result ≡ flag_word (λ k. nat_le 10 (byte k)) }
{
    ((word & 0x7f7f_7f7f_7f7f_7f7f) + 0x7676_7676_7676_7676 | word) & 0x8080_8080_8080_8080
}

/// The word with its first `count` bytes moved up to the end.
#[inline(always)]
fn keep_first(word: u64, count: u32) -> u64
    requires { count < 8 }
    ensures { result ≡ word * 256 ^ (8 - count) % 2 ^ 64 }
{
    // Two shifts, since a shift by 64 is not defined.
    word << (56 - 8 * count) << 8
}

/// How many digits the word of these lanes begins with, from the lowest byte on, and the number that they write, where
/// they are at most seven.
#[inline(always)]
fn leading_digits(lanes: u64) -> Option<(usize, u64)>
    ensures few { IfSome result (λ p. p.0 < 8) }
    ensures small { IfSome result (λ p. p.1 < 2 ^ 32) }
    ensures read { IfSome result (λ p. (word : ℕ) (xs : List ℕ) → lanes ≡ bit_xor word ZEROS → IsEightBytes xs
        → word ≡ number_l 256 xs → (p.0 ≡ digits_len xs) × (p.1 ≡ digits_value 10 (take p.0 xs))) }
{
    let others = flags_from_ten(lanes);
    if others == 0 {
        return None;
    }
    let count = others.trailing_zeros() / 8;
    Some((count as usize, value_of_eight(keep_first(lanes, count))))
}

/// The number that all eight bytes of the word of these lanes write, where they are digits.
#[inline(always)]
fn eight_digits(lanes: u64) -> Option<u64>
    ensures small { IfSome result (λ n. n < 2 ^ 32) }
    ensures read { IfSome result (λ n. (word : ℕ) (xs : List ℕ) → lanes ≡ bit_xor word ZEROS → IsEightBytes xs
        → word ≡ number_l 256 xs → (digits_len xs ≡ 8) × (n ≡ digits_value 10 xs)) }
{
    if flags_from_ten(lanes) != 0 {
        return None;
    }
    Some(value_of_eight(lanes))
}

/// How many digits the word begins with, from the lowest byte on, and the number that they write, where they are one to
/// seven and the first is no 0.
#[inline(always)]
pub fn few_digits(word: u64) -> Option<(usize, u64)>
    ensures some { IfSome result (λ p. 0 < p.0) }
    ensures few { IfSome result (λ p. p.0 < 8) }
    ensures lead { IfSome result (λ p. (xs : List ℕ) → IsEightBytes xs → word ≡ number_l 256 xs → get_or xs 0 0 ≢ 48) }
    ensures read { IfSome result (λ p. (xs : List ℕ) → IsEightBytes xs → word ≡ number_l 256 xs
        → (p.0 ≡ digits_len xs) × (p.1 ≡ digits_value 10 (take p.0 xs))) }
{
    let lanes = word ^ ZEROS;
    if lanes & 0xff == 0 {
        return None;
    }
    let (len, value) = leading_digits(lanes)?;
    if len == 0 {
        return None;
    }
    Some((len, value))
}

/// What eight digits and those behind them, with which the word begins, are worth, and how many they are: 8 to 15.
#[inline(always)]
pub fn further_digits(high: u64, word: u64) -> Option<(usize, u64)>
    requires { high < 2 ^ 32 }
    ensures many { IfSome result (λ p. 8 ≤ p.0) }
    ensures most { IfSome result (λ p. p.0 < 16) }
    ensures read { IfSome result (λ p. (xs ys : List ℕ) → IsEightBytes xs → IsEightBytes ys → digits_len xs ≡ 8
        → high ≡ digits_value 10 xs → word ≡ number_l 256 ys
        → (p.0 ≡ digits_len (xs ++ ys)) × (p.1 ≡ digits_value 10 (take p.0 (xs ++ ys)))) }
{
    let (len, low) = leading_digits(word ^ ZEROS)?;
    Some((8 + len, high * ten_to(len as u64) + low))
}

/// What the eight digits are worth that a word is, where the first is no 0.
#[inline(always)]
pub fn first_digits(word: u64) -> Option<u64>
    ensures small { IfSome result (λ n. n < 2 ^ 32) }
    ensures lead { IfSome result (λ n. (xs : List ℕ) → IsEightBytes xs → word ≡ number_l 256 xs → get_or xs 0 0 ≢ 48) }
    ensures read { IfSome result (λ n. (xs : List ℕ) → IsEightBytes xs → word ≡ number_l 256 xs
        → (digits_len xs ≡ 8) × (n ≡ digits_value 10 xs)) }
{
    let lanes = word ^ ZEROS;
    if lanes & 0xff == 0 {
        return None;
    }
    let value = eight_digits(lanes)?;
    Some(value)
}
