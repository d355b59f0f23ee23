//! Quotients of whole numbers, rounded up or down.
ghost use Rattle.std.specs.Prelude.{◌≡◌, ℕ, ◌*◌, ◌^◌, ◌<◌, ◌≤◌, ℤ, pos, ◌*ℤ◌, ◌≤ℤ◌};
ghost use Rattle.std.specs.Int.{div_ceil, int_div_euclid};

/// The least q with `a <= q * b`. The divisor is from 1 to 2^120.
pub fn ceil_div(a: u128, b: u128) -> u128
    requires positive { 0 < b }
    requires most { b ≤ 2 ^ 120 }
    ensures value { result ≡ div_ceil a b }
    ensures enough { a ≤ result * b }
    ensures least { (q : ℕ) → a ≤ q * b → result ≤ q }
{
    a.div_ceil(b)
}

/// The greatest q with `q * b <= a`. The divisor is from 1 to 2^120.
pub fn floor_div(a: i128, b: u128) -> i128
    requires positive { 0 < b }
    requires most { b ≤ 2 ^ 120 }
    ensures value { result ≡ int_div_euclid a (pos b) }
    ensures fits { (result *ℤ pos b) ≤ℤ a }
    ensures greatest { (q : ℤ) → (q *ℤ pos b) ≤ℤ a → q ≤ℤ result }
{
    a.div_euclid(b as i128)
}
